//! An interrupt line that threads share. Each thread steps it with a pass. The pass knows what it
//! has seen of the line's history, and which entries in it are its own.
#![tactic(auto)]

pub mod held;
pub mod laws;
pub mod shared;

pub use shared::{Pass, ShareRefused, SharedLine};
