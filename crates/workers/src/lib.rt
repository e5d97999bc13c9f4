//! Shifts of threads over shared lines: each device's thread, each processor and each driver of a
//! board has a worker. A shift is the time in which each worker makes some steps. Up to 64 workers
//! have a thread each; more of them share threads.
//!
//! `share` puts each line of a board behind its lock and gives the actors their passes;
//! `run_shifts` lets the workers step, until a shift makes no step; `gather` takes the lines back.
//! Each worker knows facts of its own job alone, and the shifts collect them. Nothing is claimed of
//! time, of fairness, or that threads run beside each other.
#![tactic(auto)]

mod attempts;
mod crew;
mod dealing;
mod drivers;
mod forks;
pub mod gate;
pub mod gathers;
mod job;
pub mod jobs;
pub mod laws;
pub mod lines;
mod post;
pub mod shifts;
mod sweeps;

pub use gate::{Gate, NoGate};
pub use gathers::gather;
pub use jobs::{Jobs, share};
pub use lines::SharedLines;
pub use shifts::run_shifts;
