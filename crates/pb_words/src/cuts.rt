ghost use Rattle.std.specs.Prelude.{◌≡◌, ◌≤◌, ◌++◌, length, drop, All};
ghost use Rattle.pb_words.specs.Numbers.{IsDigit};
ghost use Rattle.pb_words.specs.Cuts.{BeginsNoDigit, without_spaces};

/// The digits that the text begins with, and the rest.
pub fn cut_digits(text: &[u8]) -> (&[u8], &[u8])
    ensures cut { text.now ≡ result.0.now ++ result.1.now }
    ensures digits { All IsDigit result.0.now }
    ensures end { BeginsNoDigit result.1.now }
{
    for (i, b) in text.iter().enumerate() {
        if *b < b'0' || *b > b'9' {
            return text.split_at(i);
        }
    }
    (text, &[])
}

/// Copies all bytes but the spaces to the front of `out`, and answers how many bytes these are.
pub fn take_out_spaces(text: &[u8], out: &mut [u8]) -> usize
    requires { length text.now ≤ length out.old }
    ensures len { result ≡ length (without_spaces text.now) }
    ensures written { out.new ≡ without_spaces text.now ++ drop (length (without_spaces text.now)) out.old }
{
    let mut n = 0;
    for b in text {
        if *b != b' ' {
            out[n] = *b;
            n += 1;
        }
    }
    n
}
