//! Numbers of rows take 32 bits, since the program's own do.
ghost use Rattle.std.specs.Prelude.{All};
ghost use Rattle.explore_picks.specs.Small.{HasSmallMove};

use board_core::Moves;
use irq_base::{Entry, LineNo};
use irq_line::IrqLine;

/// Each number of the move takes 32 bits.
fn is_small(line: LineNo, entry: Entry)
    ensures { HasSmallMove (line, entry) }
{
    let _ = (line, entry);
}

/// Each number of the moves that are left takes 32 bits.
pub(crate) fn are_small<L: IrqLine>(moves: &mut Moves<'_, L>)
    ensures { All HasSmallMove moves.old }
{
    while let Some((line, entry)) = moves.next() {
        is_small(line, entry);
    }
}
