//! The play and its printing.
ghost use Rattle.std.specs.Prelude.{◌≡◌, ◌≤◌, ◌++◌, [], All, IfOk, IfSome, IsSome, length};
ghost use Rattle.std.specs.Prelude.{reverse, true, false, Ok, IsErrOf};
ghost use Rattle.board_def.specs.Layout.{layout_of};
ghost use Rattle.explore_picks.specs.Printed.{HeardSome, PlaysTo, is_write_fault};
ghost use Rattle.explore_picks.specs.Rows.{picks_text};
ghost use Rattle.explore_picks.specs.Made.{IsAlone, IsMade};
ghost use Rattle.callbacks.specs.Heard.{Heard};
ghost use Rattle.board_core.specs.Runs.{runs_of};
ghost use Rattle.irq_io.specs.Faults.{Counts};
ghost use Rattle.irq_io.specs.Whole.{KeepsNone, WritesAll, writing_failed};
ghost use Rattle.play_report.specs.Printing.{HasRow};
ghost use Rattle.play_report.specs.Report.{moves_text};

use crate::failing::ExploreFailed;
use crate::picks::print_picks;
use crate::play_to;
use crate::small::are_small;
use board_core::System;
use board_def::Board;
use board_layout::lay;
use board_report::hand_on;
use callbacks::Handler;
use irq_base::{Actor, Entry, LineNo, NoMemory};
use irq_io::{Sink, WriteFailed};
use irq_line::IrqLine;
use line_makers::{MakesDomainLine, OverDomains};
use play_report::print_moves;
use std::alloc::Global;

/// A play to a history: the system, and the picks that made its moves.
#[derive(Drop)]
struct PlayTo<'b, L: IrqLine> {
    system: System<'b, L>,
    picks: Vec<Actor>,
}

/// Makes a play to the line's history, if one is found. The only error is `NoMemory`.
fn make<'b, M: MakesDomainLine, H: Handler>(
    alloc: Global,
    board: &'b Board,
    line: LineNo,
    wanted: &[Entry],
    maker: &M,
    handlers: &mut H,
) -> Result<Option<PlayTo<'b, M::Line>>, NoMemory>
    ensures board { IfOk result (λ found. IfSome found (λ p. p.system.board ≡ board.now)) }
    ensures made { IfOk result (λ found. IfSome found
        (λ p. IsMade p.system p.picks.items line wanted.now)) }
    ensures heard { IfOk result (λ found. IfSome found (λ p. Heard H.hears
        (runs_of board.now (reverse p.system.log)) handlers.old handlers.new)) }
    ensures some { HeardSome board.now (λ runs. Heard H.hears runs handlers.old handlers.new) }
    ensures few { IfOk result (λ found. IfSome found (λ p. length p.picks.items ≤ 65536)) }
    ensures alone { IsAlone board.now line wanted.now → IfOk result IsSome }
{
    let (domains, layout) = lay(alloc, board)?;
    let maker = OverDomains::of_board(maker, &domains, board);
    let mut system = System::new(alloc, board, layout, &maker)?;
    let mut picks = Vec::new(alloc);
    if play_to(alloc, &mut system, line, wanted, &mut picks, handlers)? {
        Ok(Some(PlayTo { system, picks }))
    } else {
        Ok(None)
    }
}

/// Prints the moves and the picks, and has them handed on.
fn print_made<L: IrqLine, O: Sink>(play: &PlayTo<'_, L>, out: &mut O) -> Result<(), WriteFailed>
    requires rows { All HasRow play.now.system.log }
    requires few { length play.now.picks.items ≤ 65536 }
    ensures content { WritesAll (O.written out.old) (O.written out.new)
        (moves_text play.now.system.log ++ picks_text play.now.picks.items) result }
    ensures emptied { KeepsNone (O.kept out.new) result }
    ensures cause { Counts (O.faults out.old) (O.faults out.new) (writing_failed result) }
{
    print_moves(out, &mut play.system.moves())?;
    print_picks(out, play.picks.as_slice())?;
    hand_on(out)
}

/// Makes a play of the board to which the line's history `wanted` comes, and prints its moves and
/// its picks; answers whether one was found. One is found if no other line takes part and there is
/// room for the history; else that isn't promised. What is printed is lawful, and a board's reader
/// takes the rows of picks as these picks. The handlers are called for the runs that the play ends,
/// and for no other; where none is found, for those of the play that was tried.
///
/// # Errors
///
/// `NoMemory` if memory was refused, and nothing is printed; `Write` if a play was found, and a
/// write or a flush of `out` failed. Never `NotThere`.
pub fn play_to_and_print<M: MakesDomainLine, H: Handler, O: Sink>(
    alloc: Global,
    board: &Board,
    line: LineNo,
    wanted: &[Entry],
    maker: &M,
    handlers: &mut H,
    out: &mut O,
) -> Result<bool, ExploreFailed>
    ensures plays { PlaysTo board.now line wanted.now
        (λ runs. Heard H.hears runs handlers.old handlers.new) (O.written out.old)
        (O.written out.new) result }
    ensures emptied { result ≡ Ok true → O.kept out.new ≡ [] }
    ensures write_fault { Counts (O.faults out.old) (O.faults out.new) (is_write_fault result) }
    ensures silent { result ≡ Ok false → out.new ≡ out.old }
    ensures refused { IsErrOf result ExploreFailed.NoMemory → out.new ≡ out.old }
    ensures alone { IsAlone board.now line wanted.now → result ≡ Ok false → ⊥ }
{
    board.is_board();
    match make(alloc, board, line, wanted, maker, handlers)? {
        Some(play) => {
            are_small(&mut play.system.moves());
            match print_made(&play, out) {
                Ok(()) => Ok(true),
                Err(failed) => Err(ExploreFailed::Write(failed)),
            }
        }
        None => Ok(false),
    }
}
