//! Reading a board from a source.
ghost use Rattle.std.specs.Prelude.{IfOk};
ghost use Rattle.irq_io.specs.Faults.{Counts};
ghost use Rattle.program_io.specs.Reading.{IsStated, ReadsBoard, is_read_fault};

use board_def::Board;
use board_text::{BoardFault, BoardRefused, LONGEST_TEXT, read_board};
use irq_io::{ReadRefused, Source, read_up_to};
use std::alloc::Global;
use thiserror::Error;

/// Why a source gave no board.
#[derive(Clone, Copy, Debug, PartialEq, Eq, Error)]
pub enum InputRefused {
    /// The first fault of the bytes that came.
    #[error("board: {0}")]
    Fault(BoardFault),
    /// A read failed.
    #[error("read fault")]
    ReadFault,
    /// Memory was needed and refused.
    #[error("out of memory")]
    NoMemory,
}

impl From<ReadRefused> for InputRefused {
    ghost use Rattle.std.specs.Prelude.{◌≡◌};
    ghost use Rattle.program_io.specs.Refusals.{refusal_of_read};

    ghost from_gives = { λ refused refusal. refusal ≡ refusal_of_read refused };

    fn from(refused: ReadRefused) -> InputRefused {
        match refused {
            ReadRefused::Fault => InputRefused::ReadFault,
            ReadRefused::NoMemory => InputRefused::NoMemory,
        }
    }
}

impl From<BoardRefused> for InputRefused {
    ghost use Rattle.std.specs.Prelude.{◌≡◌};
    ghost use Rattle.program_io.specs.Refusals.{refusal_of_board};

    ghost from_gives = { λ refused refusal. refusal ≡ refusal_of_board refused };

    fn from(refused: BoardRefused) -> InputRefused {
        match refused {
            BoardRefused::Fault(fault) => InputRefused::Fault(fault),
            BoardRefused::NoMemory => InputRefused::NoMemory,
        }
    }
}

/// Reads the source to its end, or one byte past the longest text, and gives the board that the
/// bytes state.
///
/// # Errors
///
/// `Fault` with the first fault of the bytes; `ReadFault` if a read failed, exactly if the source's
/// count of faults rose; `NoMemory` if memory was refused.
pub fn read_input<S: Source>(alloc: Global, src: &mut S) -> Result<Board, InputRefused>
    ensures content { ReadsBoard (S.left src.old) (S.left src.new) result }
    ensures stated { IfOk result (λ board. IsStated (S.left src.old) board) }
    ensures cause { Counts (S.faults src.old) (S.faults src.new) (is_read_fault result) }
{
    let bytes = read_up_to(alloc, src, LONGEST_TEXT + 1)?;
    let board = read_board(alloc, bytes.as_slice())?;
    Ok(board)
}
