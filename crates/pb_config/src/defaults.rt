ghost use Rattle.std.specs.Prelude.{◌≡◌, ◌<◌, ◌≤◌, ◌/◌, length};
ghost use Rattle.pb_config.specs.Defaults.{default_at, text_of_block};

use pb_fields::{Slot, default_value};
use pb_names::lut;

/// What the slot at this place of all slots holds at first.
pub(crate) fn default_at(place: usize) -> u64
    requires { place < 14112 }
    ensures { result ≡ default_at place }
{
    default_value(Slot {
        block: (place / 1176) as u8,
        instance: 1,
        field: (place / 7 % 21) as u8,
        attr: (place % 7) as u8,
    })
}

/// The text that the instance at this place keeps at first.
pub(crate) fn text_at(instance: usize) -> &'static [u8]
    ensures text { result.now ≡ text_of_block (instance / 8) }
    ensures short { length result.now ≤ 128 }
{
    if instance / 8 == lut::BLOCK as usize {
        b"0"
    } else {
        b""
    }
}
