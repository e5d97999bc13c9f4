//! What a step answers.
use irq_base::{Entry, LineNo, NoMemory};
use std::fmt::{self, Debug, Formatter, Write};
use thiserror::Error;

/// What a step did. `L` stands for an answer that isn't at hand.
#[derive(Clone, Copy, PartialEq, Eq)]
pub enum Stepped<L> {
    /// It added this entry.
    Added(Entry),
    /// Nothing is due of the actor, and nothing changed.
    NotYet,
    /// The entry that is due ends a run of a handler, and the run's answer isn't at hand. No entry
    /// was added; room for it may have been made.
    Lacks(L),
}

/// Why a step that was due wasn't made. Nothing changed.
#[derive(Clone, Copy, PartialEq, Eq, Error)]
pub enum StepRefused {
    /// The history of this line has the greatest length that its definition allows. `len` is that
    /// length.
    #[error("the log is full with {len} entries")]
    Full { line: LineNo, len: u32 },
    /// Memory was needed and refused.
    #[error("out of memory")]
    NoMemory,
}

impl Debug for StepRefused {
    fn fmt<W: Write>(&self, f: &mut Formatter<W>) -> fmt::Result {
        write!(f, "{self}")
    }
}

impl From<NoMemory> for StepRefused {
    ghost use Rattle.std.specs.Prelude.{◌≡◌};
    ghost use Rattle.irq_line.specs.declared.answers.StepRefused.TheVariants as refusals;

    ghost from_gives = { λ _ refusal. refusal ≡ refusals.NoMemory };

    fn from(_refused: NoMemory) -> StepRefused {
        StepRefused::NoMemory
    }
}
