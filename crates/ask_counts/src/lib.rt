//! The asks of a line's devices: how many are unserved, and how many a run has met (ours; Linux
//! doesn't see the requests of its devices).
//!
//! What a handler answers and serves goes by the asks that were unserved as its run began, and the
//! level of a level line by whether some device that isn't quiet has an unserved ask. Which part of
//! a device serves by returning is fixed, and `FactTable` has it with the device's kind. Memory is
//! taken when `Asks` and `FactTable` are made, and never later.
#![tactic(auto)]

pub mod asks;
pub mod facts;
pub mod rows;

pub use asks::Asks;
pub use facts::{DeviceFacts, FactTable};
pub use rows::AskRow;
