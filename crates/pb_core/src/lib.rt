//! The core: a box at a tick, driven by events, each with its answer. One event is
//! defined in `specs/Answer.antt`, by what a query is answered (`specs/Queries.antt`)
//! and what an assignment leaves (`specs/Assignments.antt`); one tick of the box in
//! `specs/Tick.antt`, and what an event may cost in `specs/Costs.antt`.
#![tactic(auto)]

mod assignments;
mod captures;
mod cores;
mod events;
mod examples;
mod faces;
mod histories;
mod laws;
mod meanings;
mod queries;
mod reading;
mod servers;
mod sessions;
mod showing;
mod targets;
mod values;
mod who;
mod writes;

pub use cores::Core;
pub use events::{Answer, Event};
pub use examples::{
    input_is_seen_one_tick_later, lut_of_itself_toggles, readers_by_example,
    refused_lines_change_nothing, sessions_by_example,
};
pub use histories::{
    cores_begin_with_no_history, histories_grow_by_an_entry, results_fit_their_events,
};
pub use laws::{
    closed_sessions_are_told_so, muxes_are_set, only_done_lines_change_the_core,
    refusals_come_in_order, reports_show_what_queries_answer, settings_are_reached,
    the_box_has_the_settings, unknown_star_targets_are_no_fields,
};
pub use pb_jump::Why;
pub use servers::{Entry, Server};
