//! Why an input isn't judged, or its judgement isn't printed.
use irq_io::WriteFailed;
use program_io::InputRefused;
use thiserror::Error;

/// Why no judgement is printed, or not all of it.
#[derive(Clone, Copy, Debug, PartialEq, Eq, Error)]
pub enum CheckFailed {
    /// The input wasn't judged: its first fault, a read fault, or memory was refused.
    #[error("{0}")]
    Input(InputRefused),
    /// The input was judged, and a write or a flush of the output failed.
    #[error("{0}")]
    Write(WriteFailed),
}

impl From<InputRefused> for CheckFailed {
    ghost use Rattle.std.specs.Prelude.{◌≡◌};
    ghost use Rattle.irq_check.specs.declared.failing.CheckFailed.TheVariants as fails;

    ghost from_gives = { λ refused failed. failed ≡ fails.Input refused };

    fn from(refused: InputRefused) -> CheckFailed {
        CheckFailed::Input(refused)
    }
}

impl From<WriteFailed> for CheckFailed {
    ghost use Rattle.std.specs.Prelude.{◌≡◌};
    ghost use Rattle.irq_check.specs.declared.failing.CheckFailed.TheVariants as fails;

    ghost from_gives = { λ write failed. failed ≡ fails.Write write };

    fn from(write: WriteFailed) -> CheckFailed {
        CheckFailed::Write(write)
    }
}
