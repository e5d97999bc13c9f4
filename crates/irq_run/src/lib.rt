//! A board is run by threads and printed. Its lines are laid over their domains and made by a
//! maker, and each is put behind a lock. The devices' threads, the processors and the drivers step,
//! up to 64 of them in a thread each, more in fewer threads, until none can move. Then each line's
//! history, or a summary of it, is printed row by row and handed out in a report.
//!
//! What is promised of a run stands in `board_report/specs/Headline.antt`, to be read top down,
//! what is printed of it in `specs/Report.antt`, and how both come together in `specs/Ran.antt`.
//! Nothing is promised of which histories a run gives, or of the order between lines.
#![tactic(auto)]

mod finishing;
mod printing;
mod running;

pub use running::run_and_print;
