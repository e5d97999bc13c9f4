//! How a play ends at which nobody can move.
ghost use Rattle.std.specs.Prelude.{◌≡◌, map};
ghost use Rattle.board_core.specs.Hung.{IsEndOf, SaysEnd, stop_of};
ghost use Rattle.board_core.specs.Seen.{board_lines};

use crate::system::System;
use irq_base::{Actor, LineNo};
use irq_line::{IrqLine, StepRefused};

/// How a play ends at which nobody can move.
#[derive(Clone, Copy, PartialEq, Eq)]
pub enum PlayEnd {
    /// Nobody hangs.
    Settled,
    /// An actor waits for itself, at once or through others, and for ever. Of the first line with
    /// such an actor it is the lowest: threads come before processors before drivers.
    Hung { line: LineNo, actor: Actor },
}

impl<'b, L: IrqLine> System<'b, L> {
    /// Whether some actor is hung, and which is told. It goes over all lines.
    pub fn end(&self) -> PlayEnd
        ensures { IsEndOf (board_lines self.now.lines) result }
    {
        end_of(self.lines())
    }

    /// How a play ended that stopped so: where nobody can move, whether somebody hangs.
    pub fn end_after(&self, stop: Result<(), StepRefused>) -> Result<PlayEnd, StepRefused>
        ensures stop { stop_of result ≡ stop }
        ensures says { SaysEnd (board_lines self.now.lines) result }
    {
        match stop {
            Ok(()) => Ok(self.end()),
            Err(refused) => Err(refused),
        }
    }
}

/// The first of the lines with a hung actor, and its lowest.
fn end_of<L: IrqLine>(lines: &[L]) -> PlayEnd
    ensures { IsEndOf (board_lines (map L.seen lines.now)) result }
{
    for line in lines {
        if let Some(actor) = line.lowest_hung() {
            return PlayEnd::Hung {
                line: line.definition().line,
                actor,
            };
        }
    }
    PlayEnd::Settled
}
