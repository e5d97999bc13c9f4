//! Breadth first search through a space of states.
#![tactic(auto)]

mod firsts;
pub mod found;
mod packing;
pub mod searched;
pub mod searching;
pub mod space;
mod states;

pub use firsts::First;
pub use found::Found;
pub use searched::Searched;
pub use searching::{Sought, search};
pub use space::Space;
