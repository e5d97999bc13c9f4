//! What is handed out and printed of a board's lines once they were played, whoever moved them:
//! a report for each line, the layout, and a summary.
//!
//! What holds of the histories stands in `specs/Headline.antt`, to be read top down. Nothing here
//! says in which order the lines were moved: a play says that of its own moves, and a run by
//! threads says nothing of it.
#![tactic(auto)]

pub mod handing;
pub mod printing;
pub mod reporting;
pub mod summaries;

pub use handing::{Printed, hand_out};
pub use printing::{hand_on, print_layout};
pub use reporting::ReportRoom;
pub use summaries::print_totals;
