ghost use Rattle.std.specs.Prelude.{◌≡◌, ◌<◌, ◌≤◌, ◌^◌, ◌*◌, ◌++◌, length, drop, pos};
ghost use Rattle.pb_words.specs.Decimals.{canonical};
ghost use Rattle.pb_fields.specs.Values.{IsShownKind, IsRaw, shown, tick_size};

use crate::kinds::FieldKind;
use crate::labels::{bit_mux_label, label, position_mux_label};
use crate::values::tick_size;
use pb_words::{Decimal9, put_front, write_decimal, write_hex32, write_i64, write_u64};

/// Writes what is printed of the raw value at the front of `out`, and answers its length. Of the
/// function of a lookup table it is the number, `0x` and eight upper-case digits.
pub fn show(kind: FieldKind, raw: u64, out: &mut [u8]) -> usize
    requires kind { IsShownKind kind }
    requires range { IsRaw kind raw }
    requires room { 64 ≤ length out.old }
    ensures len { result ≡ length (shown kind raw) }
    ensures written { out.new ≡ shown kind raw ++ drop (length (shown kind raw)) out.old }
{
    match kind {
        FieldKind::Uint { .. } => write_u64(raw, out),
        FieldKind::Int => write_i64(raw.cast_signed(), out),
        FieldKind::Bit => write_u64(raw, out),
        FieldKind::Enum { labels } => put_front(label(labels, raw), out),
        FieldKind::BitMux => put_front(bit_mux_label(raw), out),
        FieldKind::PosMux => put_front(position_mux_label(raw), out),
        FieldKind::Decimal => show_decimal(raw, out),
        FieldKind::Time { units, .. } => show_time(units, raw, out),
        FieldKind::Lut => write_hex32(raw as u32, out),
        FieldKind::Action => unreachable!(),
        FieldKind::Text => unreachable!(),
    }
}

fn show_decimal(raw: u64, out: &mut [u8]) -> usize
    requires { 64 ≤ length out.old }
    ensures len { result ≡ length (shown FieldKind.Decimal raw) }
    ensures written { out.new ≡ shown FieldKind.Decimal raw ++ drop (length (shown FieldKind.Decimal raw)) out.old }
{
    let billionths = i128::from(raw.cast_signed());
    write_decimal(Decimal9 { billionths }, out)
}

fn show_time(units: u8, ticks: u64, out: &mut [u8]) -> usize
    requires units { units ≤ 2 }
    requires room { 64 ≤ length out.old }
    ensures len { result ≡ length (canonical (pos (ticks * tick_size units))) }
    ensures written { out.new ≡ canonical (pos (ticks * tick_size units)) ++ drop (length (canonical (pos (ticks * tick_size units)))) out.old }
{
    let billionths = (u128::from(ticks) * tick_size(units)) as i128;
    write_decimal(Decimal9 { billionths }, out)
}
