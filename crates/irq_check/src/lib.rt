//! What `genirq check` does: it reads an input, which is the text of a board, a row `---` and a log
//! of that board, and says whether the log is lawful.
//!
//! The board's text ends before the first text line that is exactly `---`, and all that follows
//! that line is the log. A log whose rows are not all rows of entries is malformed; one that can be
//! read is lawful if the history of each line is legal. The rows of a log are judged against the
//! board alone; what the board declares is never a fault of its log. Of an unlawful log it can be
//! said too which row has the entry that wasn't due, and what was due in its place.
#![tactic(auto)]

pub mod answers;
pub mod checking;
pub mod failing;
pub mod inputs;
mod laws;
pub mod parts;
pub mod printing;

pub use answers::{Judgement, answer_row};
pub use checking::{LONGEST_INPUT, check_bytes};
pub use failing::CheckFailed;
pub use inputs::check_input;
pub use laws::answer_is_one;
pub use log_check::Verdict;
pub use parts::cut_input;
pub use printing::check_and_print;
