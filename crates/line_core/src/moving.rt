//! What an entry makes of the drivers' places.
ghost use Rattle.std.specs.Prelude.{◌≡◌, ℕ, ◌+◌, ◌<◌, ◌^◌, IsSome};
ghost use Rattle.line_scripts.specs.Rows.{call_of, within_of};
ghost use Rattle.line_core.specs.Moves.{Moves, CanMove, IsMoved, ends_call};

use irq_base::{Actor, DriverNo, Entry};
use line_scripts::{Scripts, completes};

/// A driver's entry moves its place.
#[inline(always)]
pub fn advance(scripts: &mut Scripts, actor: Actor, entry: &Entry)
    requires { CanMove actor scripts.old }
    ensures { Moves actor entry.now scripts.old scripts.new }
{
    if let Actor::Driver(who) = actor {
        advance_driver(scripts, who, entry);
    }
}

/// Counts one more entry of the driver's due call.
#[inline(always)]
fn advance_driver(scripts: &mut Scripts, who: DriverNo, entry: &Entry)
    requires due { IsSome (call_of scripts.old who) }
    requires within { within_of scripts.old who + 1 < 2 ^ 32 }
    ensures { IsMoved who (ends_call (call_of scripts.old who) entry.now) scripts.old scripts.new }
{
    // A call is due.
    let Some((call, _)) = scripts.due(who) else {
        return;
    };
    scripts.advance(who, completes(call, entry));
}
