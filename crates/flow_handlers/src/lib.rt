//! The flow handlers (`kernel/irq/chip.c`): what a processor does when it takes a line's interrupt,
//! up to the first handler, and once the last handler has returned.
//!
//! There is one module for each: `level` is `handle_level_irq`, `edge` is `handle_edge_irq`,
//! `fasteoi` is `handle_fasteoi_irq`. In each, `enter` is the part before the handlers, `leave` the
//! part after them. Between the two the descriptor lock is dropped for each handler, so calls of
//! drivers, other processors and threads come in between; `leave` goes by the descriptor as it
//! finds it. No call takes memory or refuses.
#![tactic(auto)]

pub mod edge;
pub mod fasteoi;
pub mod leave_answer;
pub mod level;

pub use leave_answer::LeaveAnswer;
