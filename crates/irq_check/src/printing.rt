//! An input is read and judged, and the judgement printed.
ghost use Rattle.std.specs.Prelude.{◌≡◌, [], OnOk, false};
ghost use Rattle.irq_io.specs.Faults.{Counts};
ghost use Rattle.irq_io.specs.Whole.{KeepsNone, WritesAll, writing_failed};
ghost use Rattle.irq_check.specs.AnswerText.{answer_text};
ghost use Rattle.irq_check.specs.Checked.{IsPrintableAnswer};
ghost use Rattle.irq_check.specs.Ends.{Reads, SaysOrNot, is_printing};
ghost use Rattle.irq_check.specs.Ends.{is_read_fault_end, is_write_fault};

use crate::answers::{Judgement, answer_row};
use crate::failing::CheckFailed;
use crate::inputs::check_input;
use irq_io::{FlushAnswer, Sink, Source, WriteFailed, write_all};
use line_makers::MakesDomainLine;
use std::alloc::Global;
use text_row::TextRow;

/// Reads an input from `src`, judges it, and prints the judgement to `out`, in one row; with `why`
/// two rows more say why a log is unlawful. Lines do the judging, and `maker` makes them.
///
/// # Errors
///
/// `Input` if the input gives no judgement: its first fault; a read fault; memory was refused.
/// Nothing is printed then. `Write` if the input was judged, and a write or a flush of `out`
/// failed.
pub fn check_and_print<S: Source, O: Sink, M: MakesDomainLine>(
    alloc: Global,
    why: bool,
    src: &mut S,
    out: &mut O,
    maker: &M,
) -> Result<Judgement, CheckFailed>
    ensures reads { Reads why (S.left src.old) (S.left src.new) result }
    ensures read_fault { Counts (S.faults src.old) (S.faults src.new) (is_read_fault_end result) }
    ensures says { SaysOrNot why (S.left src.old) (O.written out.old) (O.written out.new) result }
    ensures emptied { OnOk result (O.kept out.new ≡ []) }
    ensures write_fault { Counts (O.faults out.old) (O.faults out.new) (is_write_fault result) }
    ensures silent { is_printing result ≡ false → out.new ≡ out.old }
{
    let answer = check_input(alloc, why, src, maker)?;
    print_answer(out, answer)?;
    Ok(answer)
}

/// Prints the answer's rows, and hands them on.
fn print_answer<O: Sink>(out: &mut O, answer: Judgement) -> Result<(), WriteFailed>
    requires { IsPrintableAnswer answer }
    ensures content { WritesAll (O.written out.old) (O.written out.new)
        (answer_text answer) result }
    ensures emptied { KeepsNone (O.kept out.new) result }
    ensures cause { Counts (O.faults out.old) (O.faults out.new) (writing_failed result) }
{
    let mut row = TextRow::new();
    answer_row(&mut row, answer);
    write_all(out, row.bytes())?;
    match out.flush() {
        FlushAnswer::Done => Ok(()),
        FlushAnswer::Failed => Err(WriteFailed),
    }
}
