//! Who can move on a board, found at once.
//!
//! `ReadyActors` keeps, for each line, the few facts that say who waits there, and for each driver
//! its current call. Contracts see these as two lists, and each answer is what a search over the
//! lists finds. It names nothing of interrupts but numbers. Each call takes the same time whether
//! one actor waits or three hundred, and but for `new` none takes memory.
#![tactic(auto)]

mod bits;
mod calls;
mod cpus;
mod found;
pub mod parts;
pub mod ready;
mod tree;

pub use found::{first_is_first, lowest_thread_is_lowest};
pub use parts::{CurrentCall, LineReadiness, ReadyActor, ReadyThread};
pub use ready::ReadyActors;
