//! A play of the board that comes to a log that was found.
ghost use Rattle.std.specs.Prelude.{◌≡◌, [], false, true};
ghost use Rattle.callbacks.specs.Heard.{Heard};
ghost use Rattle.explore_words.specs.Words.{IsCount};
ghost use Rattle.irq_explore.specs.Answered.{Answered};
ghost use Rattle.irq_explore.specs.Explored.{is_printed, is_printing, is_write_fault};
ghost use Rattle.irq_explore.specs.Played.{ExploresPlay, found_by_play};
ghost use Rattle.irq_explore.specs.Present.{has_all};
ghost use Rattle.irq_explore.specs.Printing.{IsPrintableAnswer};
ghost use Rattle.irq_io.specs.Faults.{Counts};

use crate::answering::answer_at;
use crate::exploring::{Explored, found_by};
use crate::present::has_named;
use crate::printing::print_answer;
use board_def::Board;
use callbacks::Handler;
use explore_picks::{ExploreFailed, play_to_and_print};
use irq_base::LineNo;
use irq_io::Sink;
use line_makers::MakesDomainLine;
use line_survey::Answer;
use line_wanted::Wanted;
use log_read::place_of;
use std::alloc::Global;

/// Looks for a shortest log of the board's line that is as wanted, as `explore_row` does, and
/// prints a play of the board whose part on the line it is, and the picks that make the play. The
/// maker makes the lines that are played; these handlers are called for the runs that the play
/// ends.
///
/// # Errors
///
/// `NotThere` if the board lacks the line or what is wanted names; `NoMemory` if memory was
/// refused; nothing is printed then. `Write` if a write or a flush of `out` failed.
pub fn explore_play<M: MakesDomainLine, H: Handler, O: Sink>(
    alloc: Global,
    board: &Board,
    states: u32,
    line: LineNo,
    wanted: Wanted,
    maker: &M,
    handlers: &mut H,
    out: &mut O,
) -> Result<Explored, ExploreFailed>
    requires { IsCount states }
    ensures explores { ExploresPlay states board.now line wanted
        (λ runs. Heard H.hears runs handlers.old handlers.new) (O.written out.old)
        (O.written out.new) result }
    ensures emptied { is_printed result ≡ true → O.kept out.new ≡ [] }
    ensures write_fault { Counts (O.faults out.old) (O.faults out.new) (is_write_fault result) }
    ensures silent { is_printing result ≡ false → out.new ≡ out.old }
{
    let Some(place) = place_of(board, line) else {
        return Err(ExploreFailed::NotThere);
    };
    if !has_named(board, line, wanted) {
        return Err(ExploreFailed::NotThere);
    }
    board.is_board();
    let answer = answer_at(alloc, board, place, wanted, states)?;
    say_play(
        alloc, board, states, line, wanted, &answer, maker, handlers, out,
    )
}

/// Prints a play that comes to the log that was found; or that there is none. The search went
/// through at most `states` states of the line.
fn say_play<M: MakesDomainLine, H: Handler, O: Sink>(
    alloc: Global,
    board: &Board,
    states: u32,
    line: LineNo,
    wanted: Wanted,
    answer: &Answer,
    maker: &M,
    handlers: &mut H,
    out: &mut O,
) -> Result<Explored, ExploreFailed>
    requires there { has_all board.now line wanted ≡ true }
    requires answered { Answered states board.now line wanted answer.now }
    requires rows { IsPrintableAnswer answer.now }
    ensures explores { ExploresPlay states board.now line wanted
        (λ runs. Heard H.hears runs handlers.old handlers.new) (O.written out.old)
        (O.written out.new) result }
    ensures emptied { is_printed result ≡ true → O.kept out.new ≡ [] }
    ensures write_fault { Counts (O.faults out.old) (O.faults out.new) (is_write_fault result) }
    ensures silent { is_printing result ≡ false → out.new ≡ out.old }
{
    let _ = (states, wanted);
    match answer {
        Answer::Found(log) => {
            let log = log.as_slice();
            let found = play_to_and_print(alloc, board, line, log, maker, handlers, out)?;
            Ok(found_by_play(found))
        }
        Answer::Never | Answer::NotWithin(_) => {
            print_answer(out, line, answer)?;
            Ok(found_by(line, answer))
        }
    }
}

/// What was found of a log, by whether a play was.
fn found_by_play(found: bool) -> Explored
    ensures { result ≡ found_by_play found }
{
    if found {
        Explored::Done
    } else {
        Explored::NoPlay
    }
}
