//! Acquisitions: what is captured from one arming to its end, and the readers that take it. What they are, and
//! what arming, records and an end do to them, is said in `specs/Acquisitions.antt`; what readers take, in
//! `specs/Readers.antt` and `specs/Taking.antt`; what of it all is kept, in `specs/Kept.antt`.
#![tactic(auto)]

mod acquiring;
mod faults;
mod laws;
mod readers;
mod storing;
mod taking;

pub use acquiring::{Acquisitions, HELD_LIMIT, PIECE_LIMIT, RECORDS_LIMIT};
pub use faults::ArmFault;
pub use laws::{
    acquisitions_are_in_order, acquisitions_by_example, held_by_example,
    readers_are_given_whole_acquisitions, readers_by_example, records_are_added, rooms_by_example,
};
pub use readers::{Piece, Reader, Taken};
