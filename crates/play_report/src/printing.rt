//! Prints the rows of a log; each row is handed to the sink by itself.
ghost use Rattle.std.specs.Prelude.{All};
ghost use Rattle.std.specs.List.{flat_map};
ghost use Rattle.irq_io.specs.Faults.{Counts};
ghost use Rattle.irq_io.specs.Whole.{WritesAll, writing_failed};
ghost use Rattle.play_report.specs.Printing.{HasRow, StepHasRow};
ghost use Rattle.play_report.specs.Report.{moves_text};

use board_core::Moves;
use irq_io::{Sink, WriteFailed, write_all};
use irq_line::IrqLine;
use log_text::KeptRows;
use text_row::TextRow;

/// Prints the rows of the moves that are left, the oldest first.
pub fn print_moves<O: Sink, L: IrqLine>(
    out: &mut O,
    moves: &mut Moves<'_, L>,
) -> Result<(), WriteFailed>
    requires { All HasRow moves.old }
    ensures content { WritesAll (O.written out.old) (O.written out.new)
        (moves_text moves.old) result }
    ensures cause { Counts (O.faults out.old) (O.faults out.new) (writing_failed result) }
{
    let mut rows = KeptRows::new();
    while let Some(at) = moves.next_place() {
        let row = rows.row_at(at.line, at.history, at.place);
        write_all(out, row)?;
    }
    Ok(())
}

/// Where rows are made, and kept.
#[derive(Drop)]
pub struct RowRoom {
    /// The rows of entries that were made last.
    pub kept: KeptRows,
    /// Where a row is made that isn't an entry's.
    pub row: TextRow,
}

impl RowRoom {
    /// Room for a row.
    pub fn new() -> RowRoom {
        RowRoom {
            kept: KeptRows::new(),
            row: TextRow::new(),
        }
    }
}

/// The steps of a log that are left to be printed, the oldest first, and how their rows are made.
pub trait StepRows {
    ghost use Rattle.std.specs.Prelude.{◌≡◌, ℕ, Option, List, drop, slice_get};
    ghost use Rattle.board_play.specs.Lines.{Move};
    ghost use Rattle.play_report.specs.Printing.{StepHasRow};

    /// A step.
    type Step;

    /// The steps that are left.
    ghost left: { Self → List Self.Step };

    /// The move that a step is; none if it moves no line.
    ghost told: { Self.Step → Option Move };

    /// The text of a step's row.
    ghost text: { Self.Step → List ℕ };

    /// The next step, if one is left.
    fn next(&mut self) -> Option<Self::Step>
        ensures first { result ≡ slice_get (left self.old) 0 }
        ensures rest { left self.new ≡ drop 1 (left self.old) };

    /// The row of a step; `room` is lent for it.
    fn row_of<'r>(room: &'r mut RowRoom, step: Self::Step) -> &'r [u8]
        requires { StepHasRow told step }
        ensures { result.now ≡ text step };
}

/// Prints the rows of the steps that are left, the oldest first.
pub fn print_rows<O: Sink, R: StepRows>(out: &mut O, steps: &mut R) -> Result<(), WriteFailed>
    requires { All (StepHasRow R.told) (R.left steps.old) }
    ensures content { WritesAll (O.written out.old) (O.written out.new)
        (flat_map R.text (R.left steps.old)) result }
    ensures cause { Counts (O.faults out.old) (O.faults out.new) (writing_failed result) }
{
    let mut room = RowRoom::new();
    while let Some(step) = steps.next() {
        write_all(out, R::row_of(&mut room, step))?;
    }
    Ok(())
}
