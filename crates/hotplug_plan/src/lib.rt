//! Which boards can be played on processors that go offline and come online, and the board that
//! comes of it: the moves of the lines are the script of a driver of the system's own.
#![tactic(auto)]

mod laws;
mod plan;

pub use laws::few_moves;
pub use plan::{fits_hotplug, planned};
