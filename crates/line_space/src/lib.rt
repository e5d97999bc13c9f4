//! The space of the states of one line, over which a search goes, and what a search through it says
//! of the line's histories. A state is written as numbers: those of its canonical state, and how far
//! each driver is with its calls.
#![tactic(auto)]

mod drivers;
mod moving;
mod scratch;
pub mod searching;
pub mod space;

pub use drivers::drivers_of;
pub use searching::{
    histories_come_to_rest, node_is_told, paths_are_legal, search_tells_of_entries,
    search_tells_of_states, steps_are_alike,
};
pub use space::LineSpace;
