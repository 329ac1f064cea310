//! The catalogue's places and raw values by name: `lut::FUNC` is the place of FUNC among the fields of LUT, and
//! `lut::BLOCK` that of LUT among the blocks; `bit_mux::DELAY` is the place of DELAY among the attributes of a
//! bit input; `edge::FALLING` is the raw value of the label `Falling`. That each is what its name says is a law
//! of pb_fields.
#![tactic(auto)]

/// How many blocks there are.
pub const BLOCKS: u8 = 12;

/// The attribute number of a field itself.
pub const ITSELF: u8 = 0;

// Blocks.
pub mod bits;
pub mod clock;
pub mod counter;
pub mod div;
pub mod inenc;
pub mod lut;
pub mod pcap;
pub mod pcomp;
pub mod pulse;
pub mod seq;
pub mod srgate;
pub mod ttlin;

// Attributes, a module for each type of field that has more than INFO.
pub mod bit_mux;
pub mod bit_out;
pub mod bit_word;
pub mod ext_out;
pub mod param_enum;
pub mod param_lut;
pub mod param_uint;
pub mod pos_out;
pub mod read_enum;
pub mod table;
pub mod time;

// Labels.
pub mod capture;
pub mod direction;
pub mod edge;
pub mod first_pulse;
pub mod label_lists;
pub mod pcomp_state;
pub mod relative;
pub mod seq_state;
pub mod time_units;
pub mod when_disabled;

// Buses.
pub mod bit_bus;
pub mod position_bus;
