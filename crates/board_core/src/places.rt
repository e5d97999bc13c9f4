//! A step of the line at a place.
ghost use Rattle.std.specs.Prelude.{◌≡◌, ◌<◌, ◌≤◌, ◌+◌, OnErr, OnOk, map, length, vec_len};
ghost use Rattle.std.specs.Prelude.{vec_capacity};
ghost use Rattle.callbacks.specs.Heard.{Heard};
ghost use Rattle.board_core.specs.Pieces.{EndsPiece, IsPieced, piece_end};
ghost use Rattle.board_core.specs.Places.{StepWants, SteppedAt, told};
ghost use Rattle.board_core.specs.Runs.{runs_at};

use callbacks::Handler;
use irq_base::{Actor, NoMemory};
use irq_line::{IrqLine, StepRefused, Stepped};
use std::convert::Infallible;

/// For how many moves the log takes memory at once.
pub(crate) const PIECE: usize = 256;

/// A step of the line at `place`. If it adds an entry, `place` goes to the end of the order, and
/// the handler of the run that the entry ends is called. Room in the order is taken first, so that
/// nothing is refused after the step.
#[inline(always)]
pub(crate) fn step_place<L: IrqLine, H: Handler>(
    lines: &mut Vec<L>,
    order: &mut Vec<u16>,
    place: usize,
    actor: Actor,
    handlers: &mut H,
) -> Result<Stepped<Infallible>, StepRefused>
    requires place { place < length lines.old.items }
    requires few { place < 65536 }
    requires pieced { IsPieced (length order.old.items) (vec_capacity order.old) }
    ensures stepped { SteppedAt (map L.seen lines.old.items) order.old.items place actor result
        (map L.seen lines.new.items) order.new.items }
    ensures heard { Heard H.hears (runs_at (map L.seen lines.old.items) place result) handlers.old
        handlers.new }
    ensures memory { StepWants L.may_want (map L.seen lines.old.items) (length order.old.items)
        place actor result }
    ensures pieced { IsPieced (length order.new.items) (vec_capacity order.new) }
{
    make_room(order)?;
    let line = &mut lines[place];
    let stepped = line.step(actor, handlers);
    line.is_sound();
    tell(order, place, &stepped);
    stepped
}

/// Makes room for one more move. Memory is taken only at the end of a piece, for the next one: the
/// first piece is there.
#[inline(always)]
fn make_room(order: &mut Vec<u16>) -> Result<(), NoMemory>
    requires { IsPieced (length order.old.items) (vec_capacity order.old) }
    ensures items { order.new.items ≡ order.old.items }
    ensures room { OnOk result (piece_end (length order.new.items) ≤ vec_capacity order.new) }
    ensures needed { OnErr result (EndsPiece (length order.old.items)) }
    ensures pieced { IsPieced (length order.new.items) (vec_capacity order.new) }
{
    if order.len() % PIECE == 0 {
        order.reserve(PIECE)?;
    }
    Ok(())
}

/// Adds the place at the end of the order, if the step added an entry.
fn tell(order: &mut Vec<u16>, place: usize, stepped: &Result<Stepped<Infallible>, StepRefused>)
    requires few { place < 65536 }
    requires room { vec_len order.old + 1 ≤ vec_capacity order.old }
    ensures told { order.new.items ≡ told stepped.now order.old.items place }
    ensures capacity { vec_capacity order.new ≡ vec_capacity order.old }
{
    if let Ok(Stepped::Added(_)) = stepped {
        order.push_reserved(place as u16);
    }
}
