//! The board that sleeps, with the system's driver.
ghost use Rattle.std.specs.Prelude.{◌≡◌, IfErr, IfOk, false};
ghost use Rattle.irq_pm.specs.SleptBoard.{is_for_sleep};
ghost use Rattle.sleep_play.specs.Played.{IsLaidOut, IsLongerOf};

use board_def::{Board, Layout};
use board_layout::lay;
use domain_hier::Hierarchy;
use irq_base::{LineNo, NoMemory};
use irq_pm::{fits_sleep, with_sleep};
use std::alloc::Global;

/// A board that has the system's driver, and its lines' layout over its domains.
#[derive(Drop)]
pub(crate) struct Longer {
    pub(crate) board: Board,
    pub(crate) domains: Hierarchy,
    pub(crate) layout: Layout,
}

/// Why there is no board with the system's driver.
pub(crate) enum NoLonger {
    /// The board can't sleep with these lines armed.
    NotForSleep,
    /// Memory was refused.
    NoMemory,
}

/// Lays the board's lines over its domains, and adds the system's driver to the board if it can
/// sleep with these lines armed.
pub(crate) fn lengthen(alloc: Global, board: Board, armed: &[LineNo]) -> Result<Longer, NoLonger>
    ensures longer { IfOk result (λ l. IsLongerOf board armed.now l.board) }
    ensures laid { IfOk result (λ l. IsLaidOut l.board l.domains l.layout) }
    ensures refused { IfErr result (λ e. e ≡ NoLonger.NotForSleep
        → is_for_sleep board armed.now ≡ false) }
{
    board.is_board();
    let Ok((domains, layout)) = lay(alloc, &board) else {
        return Err(NoLonger::NoMemory);
    };
    if !fits_sleep(&board, &layout, armed) {
        return Err(NoLonger::NotForSleep);
    }
    match with_sleep(alloc, board, &layout) {
        Ok(board) => Ok(Longer {
            board,
            domains,
            layout,
        }),
        Err(NoMemory) => Err(NoLonger::NoMemory),
    }
}
