//! Why a board isn't explored, or what was found isn't printed.
use irq_base::NoMemory;
use irq_io::WriteFailed;
use thiserror::Error;

/// Why nothing is said of what was wanted, or not all of it.
#[derive(Clone, Copy, Debug, PartialEq, Eq, Error)]
pub enum ExploreFailed {
    /// The board lacks the line, or someone or something that the row names.
    #[error("not there")]
    NotThere,
    /// Memory was needed and refused.
    #[error("out of memory")]
    NoMemory,
    /// A write or a flush of the output failed.
    #[error("{0}")]
    Write(WriteFailed),
}

impl From<NoMemory> for ExploreFailed {
    ghost use Rattle.std.specs.Prelude.{◌≡◌};
    ghost use Rattle.explore_picks.specs.declared.failing.ExploreFailed.TheVariants as fails;

    ghost from_gives = { λ _ failed. failed ≡ fails.NoMemory };

    fn from(_refused: NoMemory) -> ExploreFailed {
        ExploreFailed::NoMemory
    }
}

impl From<WriteFailed> for ExploreFailed {
    ghost use Rattle.std.specs.Prelude.{◌≡◌};
    ghost use Rattle.explore_picks.specs.declared.failing.ExploreFailed.TheVariants as fails;

    ghost from_gives = { λ write failed. failed ≡ fails.Write write };

    fn from(write: WriteFailed) -> ExploreFailed {
        ExploreFailed::Write(write)
    }
}
