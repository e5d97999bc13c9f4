//! A board with one driver more, for what the system itself does: a scenario that moves lines or
//! puts them to sleep writes that down as the script of a driver of its own, the last of all, and
//! plays the board that comes of it. Nothing of the machine changes, so the layout that was made
//! for the board is the longer board's too.
#![tactic(auto)]

mod adding;

pub use adding::{LineCall, with_last_driver};
