ghost use Rattle.std.specs.Prelude.{◌≡◌, ◌-◌, ◌^◌, ◌<◌, ◌≤◌, length, true};
ghost use Rattle.pb_words.specs.Numbers.{IsUint, ReadsUint, value_of};
ghost use Rattle.pb_words.specs.Signed.{is_uint};

use pb_words::{NumFault, read_tick};

/// The most digits that are a number below 2^62 whatever they are.
const FEW: usize = 18;

/// The number that the digits write, where it is below 2^62. Of few digits it is read without a look at the limit.
pub(crate) fn read_digits(digits: &[u8]) -> Result<u64, NumFault>
    requires { is_uint digits.now ≡ true }
    ensures { ReadsUint (2 ^ 62 - 1) digits.now result }
{
    if digits.len() <= FEW {
        Ok(number(digits))
    } else {
        read_tick(digits)
    }
}

/// The number that few digits write.
fn number(digits: &[u8]) -> u64
    requires digits { is_uint digits.now ≡ true }
    requires few { length digits.now ≤ 18 }
    ensures value { result ≡ value_of digits.now }
    ensures small { result < 10 ^ 18 }
{
    let mut n: u64 = 0;
    for b in digits {
        n = 10 * n + u64::from(*b - b'0');
    }
    n
}
