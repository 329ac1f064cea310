ghost use Rattle.std.specs.Prelude.{◌≡◌};
ghost use Rattle.pb_seq.specs.Seq as definition;

use pb_buses::Inputs;
use pb_names::seq;
use pb_tables::SeqRow;

// The triggers of rows.
pub const ALWAYS: u8 = 0;

pub const BITA_0: u8 = 1;

pub const BITA_1: u8 = 2;

pub const BITB_0: u8 = 3;

pub const BITB_1: u8 = 4;

pub const BITC_0: u8 = 5;

pub const BITC_1: u8 = 6;

pub const POSA_AT_LEAST: u8 = 7;

pub const POSA_AT_MOST: u8 = 8;

pub const POSB_AT_LEAST: u8 = 9;

pub const POSB_AT_MOST: u8 = 10;

pub const POSC_AT_LEAST: u8 = 11;

pub const POSC_AT_MOST: u8 = 12;

/// Whether the trigger of a row is met.
pub(crate) fn is_met(row: SeqRow, inputs: &Inputs) -> bool
    ensures { result ≡ definition.is_met row inputs.now }
{
    match row.trigger {
        ALWAYS => true,
        BITA_0 => !inputs.bits[seq::BITA as usize],
        BITA_1 => inputs.bits[seq::BITA as usize],
        BITB_0 => !inputs.bits[seq::BITB as usize],
        BITB_1 => inputs.bits[seq::BITB as usize],
        BITC_0 => !inputs.bits[seq::BITC as usize],
        BITC_1 => inputs.bits[seq::BITC as usize],
        POSA_AT_LEAST => inputs.positions[0] >= row.position,
        POSA_AT_MOST => inputs.positions[0] <= row.position,
        POSB_AT_LEAST => inputs.positions[1] >= row.position,
        POSB_AT_MOST => inputs.positions[1] <= row.position,
        POSC_AT_LEAST => inputs.positions[2] >= row.position,
        POSC_AT_MOST => inputs.positions[2] <= row.position,
        _ => false,
    }
}
