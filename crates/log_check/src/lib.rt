//! Logs are judged: whether each row of a text is the row of an entry, whether the history of each
//! line of a board is legal, and which entry is the first that isn't due.
//!
//! A log is gone over once. Of a row its line and who made its entry are read; the line makes the
//! step of that actor, and the row of the entry that it adds is compared with what stands there.
//! Only a row that differs is read whole. So no history is kept but the lines' own. Any lines may
//! judge, as long as they meet the contract of lines. `judge` does the same for a history that is
//! there.
#![tactic(auto)]

pub mod checking;
mod comparing;
mod heads;
pub mod judging;
mod line_judge;
mod making;
pub mod verdict;
pub mod why;

pub use checking::check_log;
pub use judging::judge;
pub use verdict::Verdict;
pub use why::{DueThen, Undue, explain_log};
