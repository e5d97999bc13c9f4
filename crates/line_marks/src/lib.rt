//! What a line keeps of its history. For each part of the state there are two definitions, what it
//! is after a past and what one more entry makes of it, and the law that they agree, for every
//! valid definition and every legal history. And there is the entry that is due of each actor, read
//! off the state alone. There is no code: each law is the clause of a function with an empty body.
#![tactic(auto)]

pub mod due;
pub mod parts;
pub mod whole;

pub use due::{
    cpu_due_is_told, driver_due_is_told, due_call_is_told, due_is_expected, due_is_told,
    end_is_its_parts, request_is_its_parts, take_is_its_parts, thread_due_is_told,
};
pub use parts::{
    actions_are, active_follows, aim_follows, aimed_follows, asks_follow, bare_is, desc_follows,
    enabled_is_active, facts_stand, freeing_follows, freeing_holds_mutex, list_follows,
    places_follow, places_stay, rounds_follow, runs_follow, tally_follows, threads_follow, up_is,
};
pub use whole::{
    cell_follows, cell_is_open, cell_is_told, cell_keeps_kind, counts_have_room, counts_stay_below,
    levels_are_told, state_begins, state_follows,
};
