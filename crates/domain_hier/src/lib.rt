//! Hierarchies of interrupt domains (`kernel/irq/irqdomain.c`): where each line lies, by its virq,
//! and the chip of its whole path.
//!
//! A line is asked for by a domain and its number there. An allocation first looks: it finds the
//! number at each level of the path, or why the line is refused, and changes nothing. Then it
//! writes; if memory is refused, what was written is undone.
#![tactic(auto)]

pub mod answers;
pub mod hierarchy;
mod levels;
mod paths;

pub use answers::AllocAnswer;
pub use hierarchy::Hierarchy;
