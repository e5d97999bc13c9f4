//! How a call of the program ends, in words and numbers.
ghost use Rattle.std.specs.Prelude.{◌≡◌};
ghost use Rattle.irq_top.specs.Ending.{ending_of_check, ending_of_play, ending_of_verdict};
ghost use Rattle.irq_top.specs.Ending.{status_of};

use board_core::PlayEnd;
use board_text::BoardFault;
use irq_base::{Actor, LineNo};
use irq_check::{CheckFailed, Judgement, Verdict};
use irq_line::StepRefused;
use play_report::PlayFailed;
use program_io::InputRefused;

/// How the work ended.
#[derive(Clone, Copy, PartialEq, Eq)]
pub enum Ending {
    /// The work was done, and all of it is printed; a log that was checked is lawful.
    Done,
    /// The log that was checked isn't lawful: of the first line whose history isn't legal, this is
    /// the first entry, counted from 1, that wasn't due.
    Unlawful { line: LineNo, entry: u32 },
    /// The log that was checked can't be read: this row, counted from 1, is the first malformed
    /// one.
    Malformed { row: u32 },
    /// The play, or the run, came to an end at which nobody can move, and all of it is printed; but
    /// an actor waits for itself, at once or through others, and for ever. Of the board's first
    /// line with such an actor it is the lowest: threads come before processors before drivers.
    Hung { line: LineNo, actor: Actor },
    /// The words of the command line are no command's.
    Usage,
    /// The input is refused: its first fault.
    Board(BoardFault),
    /// A read failed.
    ReadFault,
    /// A write or a flush of the output failed.
    WriteFault,
    /// The step that was due next was refused: its line's history has the greatest length, or
    /// memory was needed for it.
    Step(StepRefused),
    /// Memory was needed for anything but a step, and refused.
    NoMemory,
}

impl Ending {
    /// The exit status: 0 to 7, and 9.
    pub fn status(self) -> u8
        ensures { result ≡ status_of self }
    {
        match self {
            Ending::Done => 0,
            Ending::Unlawful { .. } | Ending::Malformed { .. } => 1,
            Ending::Usage => 2,
            Ending::Board(_) => 3,
            Ending::ReadFault => 4,
            Ending::WriteFault => 5,
            Ending::Step(StepRefused::Full { .. }) => 6,
            Ending::Step(StepRefused::NoMemory) | Ending::NoMemory => 7,
            Ending::Hung { .. } => 9,
        }
    }

    /// How the call ends whose play, or run, ended so.
    pub(crate) fn of_play(end: Result<PlayEnd, PlayFailed>) -> Ending
        ensures { result ≡ ending_of_play end }
    {
        match end {
            Ok(PlayEnd::Settled) => Ending::Done,
            Ok(PlayEnd::Hung { line, actor }) => Ending::Hung { line, actor },
            Err(PlayFailed::NoMemory) => Ending::NoMemory,
            Err(PlayFailed::Step(refused)) => Ending::Step(refused),
            Err(PlayFailed::Write(_)) => Ending::WriteFault,
        }
    }

    /// How the call ends whose check ended so.
    pub(crate) fn of_check(end: Result<Judgement, CheckFailed>) -> Ending
        ensures { result ≡ ending_of_check end }
    {
        match end {
            Ok(answer) => Ending::of_verdict(answer.verdict),
            Err(CheckFailed::Input(refused)) => Ending::from(refused),
            Err(CheckFailed::Write(_)) => Ending::WriteFault,
        }
    }

    /// The ending at which the verdict on a log is printed.
    fn of_verdict(verdict: Verdict) -> Ending
        ensures { result ≡ ending_of_verdict verdict }
    {
        match verdict {
            Verdict::Lawful => Ending::Done,
            Verdict::Unlawful { line, entry } => Ending::Unlawful { line, entry },
            Verdict::Malformed { row } => Ending::Malformed { row },
        }
    }
}

impl From<InputRefused> for Ending {
    ghost use Rattle.std.specs.Prelude.{◌≡◌};
    ghost use Rattle.irq_top.specs.Ending.{ending_of_refusal};

    ghost from_gives = { λ refused ending. ending ≡ ending_of_refusal refused };

    fn from(refused: InputRefused) -> Ending {
        match refused {
            InputRefused::Fault(fault) => Ending::Board(fault),
            InputRefused::ReadFault => Ending::ReadFault,
            InputRefused::NoMemory => Ending::NoMemory,
        }
    }
}
