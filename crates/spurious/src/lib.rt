//! The rule on spurious interrupts (`note_interrupt`, `kernel/irq/spurious.c`): whether a round was
//! handled, and when too many were not, so that the line is to be disabled.
//!
//! `Counts` is what a line keeps for it (`irq_count`, `irqs_unhandled`, `threads_handled`,
//! `threads_handled_last` and `last_unhandled` of `struct irq_desc`). No call takes memory.
#![tactic(auto)]

pub mod counts;
pub mod tally;

pub use counts::Counts;
pub use tally::Tally;
