//! Why a play wasn't made to its end and printed.
use irq_base::NoMemory;
use irq_io::WriteFailed;
use irq_line::StepRefused;
use std::fmt::{self, Debug, Formatter, Write};
use thiserror::Error;

/// Why a board wasn't played to its end, or the play not printed whole.
#[derive(Clone, Copy, PartialEq, Eq, Error)]
pub enum PlayFailed {
    /// Memory was refused for anything but a step: before the first one, for the reports, or to
    /// take the lines of a run back from its threads. No report is handed out, and nothing is
    /// printed.
    #[error("out of memory")]
    NoMemory,
    /// The step that was due next was refused. Nothing is printed.
    #[error(transparent)]
    Step(StepRefused),
    /// The play came to its end, and a write or a flush of its report failed.
    #[error(transparent)]
    Write(WriteFailed),
}

impl Debug for PlayFailed {
    fn fmt<W: Write>(&self, f: &mut Formatter<W>) -> fmt::Result {
        write!(f, "{self}")
    }
}

impl From<NoMemory> for PlayFailed {
    ghost use Rattle.std.specs.Prelude.{◌≡◌};
    ghost use Rattle.play_report.specs.declared.failing.PlayFailed.TheVariants as fails;

    ghost from_gives = { λ _ failed. failed ≡ fails.NoMemory };

    fn from(_refused: NoMemory) -> PlayFailed {
        PlayFailed::NoMemory
    }
}

impl From<StepRefused> for PlayFailed {
    ghost use Rattle.std.specs.Prelude.{◌≡◌};
    ghost use Rattle.play_report.specs.declared.failing.PlayFailed.TheVariants as fails;

    ghost from_gives = { λ refused failed. failed ≡ fails.Step refused };

    fn from(refused: StepRefused) -> PlayFailed {
        PlayFailed::Step(refused)
    }
}

impl From<WriteFailed> for PlayFailed {
    ghost use Rattle.std.specs.Prelude.{◌≡◌};
    ghost use Rattle.play_report.specs.declared.failing.PlayFailed.TheVariants as fails;

    ghost from_gives = { λ written failed. failed ≡ fails.Write written };

    fn from(written: WriteFailed) -> PlayFailed {
        PlayFailed::Write(written)
    }
}
