ghost use Rattle.std.specs.Prelude.{true, ◌≡◌, ◌<◌, ◌≤◌, ◌*◌, ◌^◌, ◌+ℤ◌, ◌*ℤ◌, unsigned_abs};
ghost use Rattle.pb_fields.specs.Slots.{IsSlot};
ghost use Rattle.pb_config.specs.Showing.{is_scaled, decimal_at, scaled};

use crate::configs::Config;
use pb_fields::Slot;
use pb_names::pos_out::{OFFSET, SCALE};

/// The value of a position times SCALE plus OFFSET, in billionths.
pub(crate) fn scaled(config: &Config, slot: Slot, value: i32) -> i128
    requires slot { IsSlot slot }
    requires scaled { is_scaled slot ≡ true }
    ensures { result ≡ scaled config.now.settings slot value }
{
    let scale = decimal_at(config, slot, SCALE);
    let offset = decimal_at(config, slot, OFFSET);
    scaled_by(value, scale, offset)
}

fn scaled_by(value: i32, scale: i64, offset: i64) -> i128
    requires scale { unsigned_abs scale < 10 ^ 18 }
    requires offset { unsigned_abs offset < 10 ^ 18 }
    ensures { result ≡ value *ℤ scale +ℤ offset }
{
    times(value, scale) + i128::from(offset)
}

#[tactic(auto, using(crate::proofs::ScaledLemmas::product_range))]
fn times(value: i32, scale: i64) -> i128
    requires { unsigned_abs scale < 10 ^ 18 }
    ensures product { result ≡ value *ℤ scale }
    ensures range { unsigned_abs result ≤ 2 ^ 31 * 10 ^ 18 }
{
    i128::from(value) * i128::from(scale)
}

// The decimal that SCALE or OFFSET of the position holds, in billionths.
#[tactic(auto, using(crate::proofs::ScaledLemmas::decimal_there, crate::proofs::ScaledLemmas::decimal_range))]
pub(crate) fn decimal_at(config: &Config, slot: Slot, attr: u8) -> i64
    requires slot { IsSlot slot }
    requires scaled { is_scaled slot ≡ true }
    requires from { OFFSET ≤ attr }
    requires to { attr ≤ SCALE }
    ensures decimal { result ≡ decimal_at config.now.settings slot attr }
    ensures range { unsigned_abs result < 10 ^ 18 }
{
    config.raw(Slot { attr, ..slot }).cast_signed()
}
