//! What is wanted of a line is looked for, and the answer printed; or lines are surveyed.
ghost use Rattle.std.specs.Prelude.{◌≡◌, [], All, false, true};
ghost use Rattle.board_def.specs.Layout.{layout_of};
ghost use Rattle.explore_words.specs.Words.{IsCount};
ghost use Rattle.irq_explore.specs.Answered.{Answered};
ghost use Rattle.irq_explore.specs.Explored.{ExploresLines, ExploresRow, found_by, found_in};
ghost use Rattle.irq_explore.specs.Explored.{is_printed, is_printing, is_write_fault};
ghost use Rattle.irq_explore.specs.Present.{has_all};
ghost use Rattle.irq_explore.specs.Printing.{IsPrintableAnswer};
ghost use Rattle.irq_explore.specs.Surveyed.{AreSurveys, HasRows, first_cut, has_asked};
ghost use Rattle.irq_io.specs.Faults.{Counts};

use crate::answering::answer_at;
use crate::present::has_named;
use crate::printing::print_answer;
use crate::small::answer_is_small;
use crate::survey_printing::print_surveys;
use crate::surveying::{LineSurvey, survey_lines};
use board_def::{Board, Layout};
use board_layout::lay;
use explore_picks::ExploreFailed;
use irq_base::LineNo;
use irq_io::Sink;
use line_survey::Answer;
use line_wanted::Wanted;
use log_read::place_of;
use std::alloc::Global;

/// What the exploring of a board found.
#[derive(Clone, Copy, PartialEq, Eq)]
pub enum Explored {
    /// What was asked is printed: a shortest log, a play that comes to it, or the surveys.
    Done,
    /// No lawful log is as wanted, and that is printed.
    Never,
    /// The line has more states than were to be visited, and what is known of it is printed. If
    /// several lines have, it is the first.
    Cut(LineNo),
    /// There is a log as wanted, but no play of the board that comes to it was found. Nothing is
    /// printed.
    NoPlay,
}

/// Looks for a shortest log of the board's line that is as wanted, through at most `states` states
/// of the line, and prints it; or prints that there is none, or none up to a length.
///
/// # Errors
///
/// `NotThere` if the board lacks the line or what is wanted names; `NoMemory` if memory was
/// refused; nothing is printed then. `Write` if a write or a flush of `out` failed.
pub fn explore_row<O: Sink>(
    alloc: Global,
    board: &Board,
    states: u32,
    line: LineNo,
    wanted: Wanted,
    out: &mut O,
) -> Result<Explored, ExploreFailed>
    requires { IsCount states }
    ensures explores { ExploresRow states board.now line wanted (O.written out.old)
        (O.written out.new) result }
    ensures emptied { is_printed result ≡ true → O.kept out.new ≡ [] }
    ensures write_fault { Counts (O.faults out.old) (O.faults out.new) (is_write_fault result) }
    ensures silent { is_printing result ≡ false → out.new ≡ out.old }
{
    let Some(place) = place_of(board, line) else {
        return Err(ExploreFailed::NotThere);
    };
    if !has_named(board, line, wanted) {
        return Err(ExploreFailed::NotThere);
    }
    board.is_board();
    let answer = answer_at(alloc, board, place, wanted, states)?;
    say(board, states, line, wanted, &answer, out)
}

/// Prints the answer of a search through at most `states` states of the line.
fn say<O: Sink>(
    board: &Board,
    states: u32,
    line: LineNo,
    wanted: Wanted,
    answer: &Answer,
    out: &mut O,
) -> Result<Explored, ExploreFailed>
    requires there { has_all board.now line wanted ≡ true }
    requires answered { Answered states board.now line wanted answer.now }
    requires rows { IsPrintableAnswer answer.now }
    ensures explores { ExploresRow states board.now line wanted (O.written out.old)
        (O.written out.new) result }
    ensures emptied { is_printed result ≡ true → O.kept out.new ≡ [] }
    ensures write_fault { Counts (O.faults out.old) (O.faults out.new) (is_write_fault result) }
    ensures printing { is_printing result ≡ true }
{
    answer_is_small(line, answer);
    print_answer(out, line, answer)?;
    Ok(found_by(line, answer))
}

/// What was found with this answer.
pub(crate) fn found_by(line: LineNo, answer: &Answer) -> Explored
    ensures { result ≡ found_by line answer.now }
{
    match answer {
        Answer::Found(_) => Explored::Done,
        Answer::Never => Explored::Never,
        Answer::NotWithin(_) => Explored::Cut(line),
    }
}

/// Surveys the board's lines that take part, or the one that is asked for, each through at most
/// `states` of its states. Prints the layout, and behind it for each line its totals, each way in
/// which it can be left, and each row that can come.
///
/// # Errors
///
/// `NotThere` if the board lacks the line that is asked for; `NoMemory` if memory was refused;
/// nothing is printed then. `Write` if a write or a flush of `out` failed.
pub fn explore_survey<O: Sink>(
    alloc: Global,
    board: &Board,
    states: u32,
    asked: Option<LineNo>,
    out: &mut O,
) -> Result<Explored, ExploreFailed>
    requires { IsCount states }
    ensures explores { ExploresLines board.now states asked (O.written out.old)
        (O.written out.new) result }
    ensures emptied { is_printed result ≡ true → O.kept out.new ≡ [] }
    ensures write_fault { Counts (O.faults out.old) (O.faults out.new) (is_write_fault result) }
    ensures silent { is_printing result ≡ false → out.new ≡ out.old }
{
    if !has_asked(board, asked) {
        return Err(ExploreFailed::NotThere);
    }
    let (_, layout) = lay(alloc, board)?;
    let surveys = survey_lines(alloc, board, &layout, asked, states)?;
    say_surveys(board, states, asked, &layout, surveys.as_slice(), out)
}

/// Whether the board has the line that is asked for.
fn has_asked(board: &Board, asked: Option<LineNo>) -> bool
    ensures { result ≡ has_asked board.now asked }
{
    match asked {
        Some(line) => place_of(board, line).is_some(),
        None => true,
    }
}

/// Prints the surveys of the lines that are asked for.
fn say_surveys<O: Sink>(
    board: &Board,
    states: u32,
    asked: Option<LineNo>,
    layout: &Layout,
    surveys: &[LineSurvey],
    out: &mut O,
) -> Result<Explored, ExploreFailed>
    requires there { has_asked board.now asked ≡ true }
    requires layout { layout.now ≡ layout_of board.now }
    requires surveys { AreSurveys board.now states asked surveys.now }
    requires rows { All HasRows surveys.now }
    ensures explores { ExploresLines board.now states asked (O.written out.old)
        (O.written out.new) result }
    ensures emptied { is_printed result ≡ true → O.kept out.new ≡ [] }
    ensures write_fault { Counts (O.faults out.old) (O.faults out.new) (is_write_fault result) }
    ensures printing { is_printing result ≡ true }
{
    print_surveys(out, board, layout, surveys)?;
    Ok(found_in(surveys))
}

/// What was found with these surveys.
fn found_in(surveys: &[LineSurvey]) -> Explored
    ensures { result ≡ found_in (first_cut surveys.now) }
{
    for survey in surveys {
        if survey.survey.cut.is_some() {
            return Explored::Cut(survey.line);
        }
    }
    Explored::Done
}
