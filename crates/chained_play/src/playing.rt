//! Plays a board behind one demultiplexer, and prints it.
ghost use Rattle.std.specs.Prelude.{◌≡◌, [], IfOk, OnErr, OnOk, false};
ghost use Rattle.callbacks.specs.Heard.{Heard};
ghost use Rattle.irq_io.specs.Faults.{Counts};
ghost use Rattle.irq_chained.specs.Fits.{is_for_chain};
ghost use Rattle.play_report.specs.Failing.{is_printing, is_write_fault};
ghost use Rattle.chained_play.specs.Played.{ChainsBoard, TellsStep};

use crate::ended::ChainPlay;
use board_def::Board;
use board_layout::lay;
use board_report::ReportRoom;
use callbacks::Handler;
use irq_chained::{Demux, fits_chain};
use irq_io::Sink;
use line_makers::{MakesDomainLine, OverDomains};
use play_report::{PlayedBoard, report, unplayed};
use std::alloc::Global;

/// The board can't be played behind one demultiplexer.
#[derive(Clone, Copy, PartialEq, Eq)]
pub struct NotForChain;

/// Lays the board's lines over its domains, plays them behind one demultiplexer by the chain's
/// order with the board's picks, and prints the play. The maker makes each line; handlers are
/// called as they are due. No memory is taken once a row is printed. The only error is a board
/// that has a call that moves a line, a line that leaves a processor out, or more than 32 lines
/// that take part.
pub fn chained_and_print<O: Sink, M: MakesDomainLine, H: Handler>(
    alloc: Global,
    board: &Board,
    maker: &M,
    handlers: &mut H,
    out: &mut O,
) -> Result<PlayedBoard, NotForChain>
    ensures refused { OnErr result (is_for_chain board.now ≡ false) }
    ensures quiet { OnErr result (out.new ≡ out.old) }
    ensures unheard { OnErr result (Heard H.hears [] handlers.old handlers.new) }
    ensures plays { IfOk result (λ p. ChainsBoard board.now
        (λ runs. Heard H.hears runs handlers.old handlers.new) p.reports.reports
        (O.written out.old) (O.written out.new) p.end) }
    ensures step { IfOk result (λ p.
        TellsStep M.Line.may_want board.now p.reports.reports p.end) }
    ensures emptied { IfOk result (λ p. OnOk p.end (O.kept out.new ≡ [])) }
    ensures write_fault { IfOk result (λ p. Counts (O.faults out.old) (O.faults out.new)
        (is_write_fault p.end)) }
    ensures silent { IfOk result (λ p. is_printing p.end ≡ false → out.new ≡ out.old) }
{
    let Ok((domains, layout)) = lay(alloc, board) else {
        return Ok(unplayed(alloc));
    };
    if !fits_chain(board, &layout) {
        return Err(NotForChain);
    }
    let Ok(room) = ReportRoom::new(alloc, board) else {
        return Ok(unplayed(alloc));
    };
    let maker = OverDomains::of_board(maker, &domains, board);
    let Ok(mut demux) = Demux::new(alloc, board, layout, &maker) else {
        return Ok(unplayed(alloc));
    };
    let stop = demux.play(board.picks(), handlers);
    let end = demux.end_after(stop);
    Ok(report(board, ChainPlay { demux, end }, room, out))
}
