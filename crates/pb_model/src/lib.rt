//! The whole box: its blocks in the order of the catalogue, one tick of all of them, and the changes that
//! the outside makes. `specs/Tick.antt` says what a tick is, `specs/Settings.antt` what a change does, and
//! `specs/Tables.antt` what a table write leaves.
#![tactic(auto)]

mod arming;
mod blocks;
mod boxes;
mod changes;
mod laws;
mod places;
mod settings;
mod shows;
mod tables;
mod ticks;
mod units;

pub use blocks::Block;
pub use boxes::BoxState;
pub use changes::{Change, is_taken_role};
pub use laws::{
    boxes_by_example, changes_and_puts_keep_agreement, outputs_stand_at_their_entries,
    what_is_set_stays,
};
pub use places::{MACHINES, machine};
pub use shows::show_values;
pub use ticks::tick;
pub use units::Unit;
