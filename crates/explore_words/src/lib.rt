//! The words of the command line of `genirq-explore`, and what they ask for: a survey of all lines,
//! or of one, or a row of a line, for which a shortest log is looked for, or a play that comes to
//! it.
//!
//! A row may be one argument or several. It is the row of an entry, as logs have it, or it says how
//! a line is left at rest: `1 rest disabled 0 pending`. Whether a board's logs can have the row is
//! asked of the board, once it is read.
#![tactic(auto)]

ghost use Rattle.std.specs.Prelude.{◌≡◌, ℕ, List, map};
ghost use Rattle.explore_words.specs.Words.{Asks, Finds};

mod asking;
mod joining;
mod rests;
mod rows;
mod versions;

pub use asking::{MOST_STATES, USUAL_STATES, read_words};
use irq_base::LineNo;
use line_wanted::Wanted;
pub use versions::may_ask;

/// What is asked of a line, or of all.
#[derive(Clone, Copy, PartialEq, Eq)]
pub enum What {
    /// All that can come of each line.
    Survey,
    /// All that can come of the line.
    Line(LineNo),
    /// A shortest log of the line that is as wanted.
    Row(LineNo, Wanted),
    /// A play of the board that comes to a shortest log of the line that is as wanted.
    Play(LineNo, Wanted),
}

/// What the program can be asked for.
#[derive(Clone, Copy, PartialEq, Eq)]
pub struct Asked {
    /// How many states of a line are visited at most: 1 to `MOST_STATES`.
    pub states: u32,
    /// What is asked.
    pub what: What,
}

/// Words ask for one thing at most.
pub fn asked_is_one()
    ensures { (words : List (List ℕ)) (one other : Asked) → Asks words one → Asks words other
        → one ≡ other }
{}
