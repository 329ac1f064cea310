ghost use Rattle.std.specs.Prelude.{◌≡◌, ◌<◌, ◌≤◌, ◌++◌, length, drop};
ghost use Rattle.pb_words.specs.Hex.{hex_digit_at, hex_text};

use crate::lines::Line;

/// Writes `0x` and eight upper-case digits at the front of `out`, and answers their length, 10.
#[tactic(auto, unfolding(crate::specs::Hex::hex_text))]
pub fn write_hex32(value: u32, out: &mut [u8]) -> usize
    requires { 48 ≤ length out.old }
    ensures len { result ≡ length (hex_text value) }
    ensures written { out.new ≡ hex_text value ++ drop (length (hex_text value)) out.old }
{
    let mut line = Line::new();
    line.append(b"0x");
    line.append(&[
        hex_digit_at(value, 7),
        hex_digit_at(value, 6),
        hex_digit_at(value, 5),
        hex_digit_at(value, 4),
        hex_digit_at(value, 3),
        hex_digit_at(value, 2),
        hex_digit_at(value, 1),
        hex_digit_at(value, 0),
    ]);
    line.put(out)
}

fn hex_digit_at(value: u32, place: u32) -> u8
    requires { place < 8 }
    ensures { result ≡ hex_digit_at value place }
{
    let digit = (value >> (4 * place)) % 16;
    if digit < 10 {
        b'0' + digit as u8
    } else {
        b'A' + (digit - 10) as u8
    }
}
