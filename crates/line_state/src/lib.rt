//! The state of one interrupt line, joined of its parts: descriptor, chips, affinity, actions,
//! threads, asks, the scripts of runs, the round of the flow and the counts of the rule on spurious
//! interrupts.
//!
//! `LineState` decides which step is due of a thread, of a processor and of a driver's call, and
//! `make` makes it: one act a kind, in the kernel's order, which changes the parts and answers the
//! entry that it came to. So each rule stands once. What a call does is the same whoever makes it,
//! a driver, a handler or a thread. It keeps no history: what it is after an entry follows from
//! what it was before. Each call looks at a few rows of tables, and goes over the actions only as
//! one is linked or unlinked. No call takes memory but `new` and `reserve`, which makes the room
//! that a request needs.
#![tactic(auto)]

pub mod call_due;
pub mod calls;
pub mod cpu_due;
pub mod driver_due;
pub mod drivers;
pub mod due;
pub mod flow;
pub mod make;
pub mod parts;
pub mod requests;
pub mod round;
pub mod run_due;
pub mod runs;
pub mod state;
pub mod thread_due;
pub mod waits;

pub use due::{CallStep, CpuStep, DriverStep, DueStep, ThreadStep};
pub use round::Round;
pub use runs::RunThere;
pub use state::LineState;
