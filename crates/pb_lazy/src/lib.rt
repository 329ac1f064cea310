//! Blocks that stay at a tick of their own while nothing concerns them: what each stands for at a tick, whether it is
//! busy, and what a tick leaves of it, with at most three block calls for one that is busy and none for one that isn't.
//! `specs/Lazy.antt` says what is known of such a block.
#![tactic(auto)]

mod commands;
mod laws;
mod lazies;
mod lists;
mod same;

pub use laws::commands_act_on_the_block_at_the_tick;
pub use lazies::Lazy;
pub use lists::{are_quiet, first_due, is_one_busy, meet_all, refresh_all};
