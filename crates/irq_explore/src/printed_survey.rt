//! A survey is printed row by row.
ghost use Rattle.std.specs.Prelude.{All};
ghost use Rattle.std.specs.List.{flat_map};
ghost use Rattle.irq_io.specs.Faults.{Counts};
ghost use Rattle.irq_io.specs.Whole.{WritesAll, writing_failed};
ghost use Rattle.log_text.specs.EntryWords.{IsPrintable};
ghost use Rattle.irq_explore.specs.SurveyTexts.{HasRow, came_text, rest_text, survey_text};

use crate::rows::{rest_row, totals_row};
use irq_base::LineNo;
use irq_io::{Sink, WriteFailed, write_all};
use line_survey::{EntryRow, RestRow, Survey};
use log_text::entry_row;
use text_row::TextRow;

/// Prints the rows of the ways in which the line can be left.
fn print_rests<O: Sink>(
    out: &mut O,
    row: &mut TextRow,
    line: LineNo,
    rests: &[RestRow],
) -> Result<(), WriteFailed>
    ensures content { WritesAll (O.written out.old) (O.written out.new)
        (flat_map (rest_text line) rests.now) result }
    ensures cause { Counts (O.faults out.old) (O.faults out.new) (writing_failed result) }
{
    for i in 0..rests.len() {
        rest_row(row, line, rests[i]);
        write_all(out, row.bytes())?;
    }
    Ok(())
}

/// Prints a row that can come, with the length of a shortest log in front.
fn print_came<O: Sink>(
    out: &mut O,
    row: &mut TextRow,
    line: LineNo,
    came: EntryRow,
) -> Result<(), WriteFailed>
    requires { HasRow came }
    ensures content { WritesAll (O.written out.old) (O.written out.new) (came_text line came)
        result }
    ensures cause { Counts (O.faults out.old) (O.faults out.new) (writing_failed result) }
{
    row.clear();
    row.push_number(came.len);
    row.push(b' ');
    write_all(out, row.bytes())?;
    entry_row(row, line, &came.entry);
    write_all(out, row.bytes())
}

/// Prints the rows that can come.
fn print_rows<O: Sink>(
    out: &mut O,
    row: &mut TextRow,
    line: LineNo,
    rows: &[EntryRow],
) -> Result<(), WriteFailed>
    requires { All HasRow rows.now }
    ensures content { WritesAll (O.written out.old) (O.written out.new)
        (flat_map (came_text line) rows.now) result }
    ensures cause { Counts (O.faults out.old) (O.faults out.new) (writing_failed result) }
{
    for i in 0..rows.len() {
        print_came(out, row, line, rows[i])?;
    }
    Ok(())
}

/// Prints a line's survey; `row` is lent for the rows.
pub fn print_survey<O: Sink>(
    out: &mut O,
    row: &mut TextRow,
    line: LineNo,
    survey: &Survey,
) -> Result<(), WriteFailed>
    requires { All HasRow survey.now.rows.items }
    ensures content { WritesAll (O.written out.old) (O.written out.new)
        (survey_text line survey.now) result }
    ensures cause { Counts (O.faults out.old) (O.faults out.new) (writing_failed result) }
{
    totals_row(row, line, survey);
    write_all(out, row.bytes())?;
    print_rests(out, row, line, survey.rests.as_slice())?;
    print_rows(out, row, line, survey.rows.as_slice())
}
