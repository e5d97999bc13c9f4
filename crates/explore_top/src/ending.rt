//! How a call of the program ends, in words and numbers.
ghost use Rattle.std.specs.Prelude.{◌≡◌};
ghost use Rattle.explore_top.specs.Ending.{ending_of, status_of};

use board_words::BoardFault;
use irq_base::LineNo;
use irq_explore::{ExploreFailed, Explored};
use program_io::InputRefused;

/// How the work ended.
#[derive(Clone, Copy, PartialEq, Eq)]
pub enum Ending {
    /// What was asked is printed, all of it.
    Done,
    /// No lawful log is as wanted, and that is printed.
    Never,
    /// The words of the command line ask for nothing.
    Usage,
    /// The input is refused: its first fault.
    Board(BoardFault),
    /// The board lacks the line, or someone or something that the row names.
    NotThere,
    /// A read failed.
    ReadFault,
    /// A write or a flush of the output failed.
    WriteFault,
    /// Memory was needed and refused.
    NoMemory,
    /// The line has more than `states` states, which were to be visited at most. What is known of
    /// it is printed. If several lines have, it is the first.
    Cut { line: LineNo, states: u32 },
    /// There is a log as wanted, but no play of the board that comes to it was found.
    NoPlay,
}

impl Ending {
    /// The exit status: 0 to 5, 7 or 8.
    pub fn status(self) -> u8
        ensures { result ≡ status_of self }
    {
        match self {
            Ending::Done => 0,
            Ending::Never => 1,
            Ending::Usage => 2,
            Ending::Board(_) | Ending::NotThere => 3,
            Ending::ReadFault => 4,
            Ending::WriteFault => 5,
            Ending::NoMemory => 7,
            Ending::Cut { .. } | Ending::NoPlay => 8,
        }
    }

    /// The ending of an exploring of at most `states` states a line.
    pub(crate) fn of(end: Result<Explored, ExploreFailed>, states: u32) -> Ending
        ensures { result ≡ ending_of states end }
    {
        match end {
            Ok(Explored::Done) => Ending::Done,
            Ok(Explored::Never) => Ending::Never,
            Ok(Explored::Cut(line)) => Ending::Cut { line, states },
            Ok(Explored::NoPlay) => Ending::NoPlay,
            Err(ExploreFailed::NotThere) => Ending::NotThere,
            Err(ExploreFailed::NoMemory) => Ending::NoMemory,
            Err(ExploreFailed::Write(_)) => Ending::WriteFault,
        }
    }
}

impl From<InputRefused> for Ending {
    ghost use Rattle.std.specs.Prelude.{◌≡◌};
    ghost use Rattle.explore_top.specs.Ending.{ending_of_refusal};

    ghost from_gives = { λ refused ending. ending ≡ ending_of_refusal refused };

    fn from(refused: InputRefused) -> Ending {
        match refused {
            InputRefused::Fault(fault) => Ending::Board(fault),
            InputRefused::ReadFault => Ending::ReadFault,
            InputRefused::NoMemory => Ending::NoMemory,
        }
    }
}
