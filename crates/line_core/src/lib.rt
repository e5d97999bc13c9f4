//! An interrupt line that keeps marks: its history beside the state that it comes to, so that a
//! step looks at a few rows of tables and at no history.
//!
//! `Line` is a line over any chips. There is one road of a step, in a file for each kind of actor
//! (`processors`, `threads`, `drivers`): what is due of the actor, room for its entry, then what
//! the
//! step does, and its entry at the history's end. A return has the answer of its run from whoever
//! hears, once there is room. The queries after a step read the state. Memory is taken when a line
//! is made, for the history's room and for an action that is linked, and nowhere else.
//!
//! An entry, or a run to be answered, doesn't fit a register, and goes through memory at a call. So
//! the parts of a step are `#[inline(always)]`, here and in the crates below and above: a step of a
//! processor is one function to the machine. Those of threads and drivers stand apart, so that it
//! takes in no more than the toolchain inlines.
#![tactic(auto)]

mod drivers;
pub mod due;
pub mod hanging;
mod line;
mod making;
pub mod moving;
mod obstacles;
mod processors;
mod room;
mod threads;

pub use due::due_by;
pub use hanging::lowest_hung;
pub use line::Line;
pub use making::MakesCellLine;
pub use moving::advance;
