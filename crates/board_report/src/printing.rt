//! Prints the layout of a board, row by row, and has what was printed handed on.
ghost use Rattle.std.specs.Prelude.{◌≡◌, length};
ghost use Rattle.board_def.specs.Layout.{layout_of};
ghost use Rattle.irq_io.specs.Faults.{Counts};
ghost use Rattle.irq_io.specs.Told.{Stays};
ghost use Rattle.irq_io.specs.Whole.{KeepsNone, WritesAll, writing_failed};
ghost use Rattle.log_text.specs.LayoutRows.{layout_rows};

use board_def::{Board, Layout};
use irq_io::{FlushAnswer, Sink, WriteFailed, write_all};
use log_text::layout_row;
use text_row::TextRow;

/// Prints where each line lies, in the board's order; `row` is lent for the rows.
pub fn print_layout<O: Sink>(
    out: &mut O,
    row: &mut TextRow,
    board: &Board,
    layout: &Layout,
) -> Result<(), WriteFailed>
    requires { layout.now ≡ layout_of board.now }
    ensures content { WritesAll (O.written out.old) (O.written out.new)
        (layout_rows board.now) result }
    ensures cause { Counts (O.faults out.old) (O.faults out.new) (writing_failed result) }
{
    for i in 0..board.lines_len() {
        layout_row(row, layout, board, i);
        write_all(out, row.bytes())?;
    }
    Ok(())
}

/// Has the sink hand on all that was written to it.
pub fn hand_on<O: Sink>(out: &mut O) -> Result<(), WriteFailed>
    ensures content { Stays (O.written out.old) (O.written out.new) }
    ensures emptied { KeepsNone (O.kept out.new) result }
    ensures cause { Counts (O.faults out.old) (O.faults out.new) (writing_failed result) }
{
    match out.flush() {
        FlushAnswer::Done => Ok(()),
        FlushAnswer::Failed => Err(WriteFailed),
    }
}
