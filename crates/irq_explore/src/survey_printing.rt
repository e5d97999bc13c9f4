//! Prints surveys.
ghost use Rattle.std.specs.Prelude.{◌≡◌, All};
ghost use Rattle.std.specs.List.{flat_map};
ghost use Rattle.board_def.specs.Layout.{layout_of};
ghost use Rattle.irq_explore.specs.Surveyed.{HasRows, line_text, surveys_text};
ghost use Rattle.irq_io.specs.Faults.{Counts};
ghost use Rattle.irq_io.specs.Whole.{KeepsNone, WritesAll, writing_failed};

use crate::print_survey;
use crate::surveying::LineSurvey;
use board_def::{Board, Layout};
use board_report::{hand_on, print_layout};
use irq_io::{Sink, WriteFailed};
use text_row::TextRow;

/// Prints the survey.
fn print_line<O: Sink>(
    out: &mut O,
    row: &mut TextRow,
    survey: &LineSurvey,
) -> Result<(), WriteFailed>
    requires { HasRows survey.now }
    ensures content { WritesAll (O.written out.old) (O.written out.new) (line_text survey.now)
        result }
    ensures cause { Counts (O.faults out.old) (O.faults out.new) (writing_failed result) }
{
    print_survey(out, row, survey.line, &survey.survey)
}

/// Prints the surveys.
fn print_lines<O: Sink>(
    out: &mut O,
    row: &mut TextRow,
    surveys: &[LineSurvey],
) -> Result<(), WriteFailed>
    requires { All HasRows surveys.now }
    ensures content { WritesAll (O.written out.old) (O.written out.new)
        (flat_map line_text surveys.now) result }
    ensures cause { Counts (O.faults out.old) (O.faults out.new) (writing_failed result) }
{
    for i in 0..surveys.len() {
        print_line(out, row, &surveys[i])?;
    }
    Ok(())
}

/// Prints the layout, and the surveys behind it.
fn print_all<O: Sink>(
    out: &mut O,
    board: &Board,
    layout: &Layout,
    surveys: &[LineSurvey],
) -> Result<(), WriteFailed>
    requires layout { layout.now ≡ layout_of board.now }
    requires rows { All HasRows surveys.now }
    ensures content { WritesAll (O.written out.old) (O.written out.new)
        (surveys_text board.now surveys.now) result }
    ensures cause { Counts (O.faults out.old) (O.faults out.new) (writing_failed result) }
{
    let mut row = TextRow::new();
    print_layout(out, &mut row, board, layout)?;
    print_lines(out, &mut row, surveys)
}

/// Prints the layout, and the surveys behind it, and hands them on.
pub(crate) fn print_surveys<O: Sink>(
    out: &mut O,
    board: &Board,
    layout: &Layout,
    surveys: &[LineSurvey],
) -> Result<(), WriteFailed>
    requires layout { layout.now ≡ layout_of board.now }
    requires rows { All HasRows surveys.now }
    ensures content { WritesAll (O.written out.old) (O.written out.new)
        (surveys_text board.now surveys.now) result }
    ensures emptied { KeepsNone (O.kept out.new) result }
    ensures cause { Counts (O.faults out.old) (O.faults out.new) (writing_failed result) }
{
    print_all(out, board, layout, surveys)?;
    hand_on(out)
}
