//! The play.
ghost use Rattle.std.specs.Prelude.{◌≡◌, ◌≤◌, ◌++◌, List, [], length, reverse, slice_get, Some};
ghost use Rattle.std.specs.Prelude.{◌∷◌, ◌↔◌, IfOk, IsSome, IsTrue, map, true};
ghost use Rattle.irq_base.specs.Who.{actor_of};
ghost use Rattle.irq_base.specs.declared.entries.Actor.{Actor};
ghost use Rattle.irq_base.specs.declared.entries.Entry.{Entry};
ghost use Rattle.irq_base.specs.declared.lines.LineDef.{LineDef};
ghost use Rattle.irq_model.specs.Legal.{IsLegalPast};
ghost use Rattle.board_def.specs.Rules.{IsBoard};
ghost use Rattle.board_def.specs.Seen.{BoardSeen};
ghost use Rattle.board_play.specs.Lines.{Move, defs_of};
ghost use Rattle.board_play.specs.Play.{End, IsChosen, Plays};
ghost use Rattle.board_core.specs.Playing.{IsFresh};
ghost use Rattle.board_core.specs.Runs.{runs_by_turn};
ghost use Rattle.board_core.specs.Turns.{Turns, move_of};
ghost use Rattle.callbacks.specs.Heard.{Heard};
ghost use Rattle.explore_picks.specs.Made.{ArePicked, IsAlone, IsHeardPlay, IsMade};

use crate::others::{is_elsewhere, others_of};
use board_core::{System, Turn};
use callbacks::Handler;
use irq_base::{Actor, Entry, LineNo, NoMemory};
use irq_line::{IrqLine, StepRefused};
use std::alloc::Global;

/// How many picks make a play at most.
pub const PICKS: usize = 65_536;

/// A turn of the actor; if it can't move, of the first of the others that can move on another line.
/// Answers whose turn it was.
fn turn_of<L: IrqLine, H: Handler>(
    system: &mut System<'_, L>,
    line: LineNo,
    actor: Actor,
    others: &[Actor],
    handlers: &mut H,
) -> (Actor, Result<Turn, StepRefused>)
    ensures turns { Turns system.old result.0 result.1 system.new }
    ensures heard { Heard H.hears (runs_by_turn system.old result.1) handlers.old handlers.new }
    ensures first { IsSome (move_of system.old actor) → result.0 ≡ actor }
{
    match system.turn(actor, handlers) {
        Ok(Turn::NotYet) => {}
        turn => return (actor, turn),
    }
    for other in others {
        if is_elsewhere(system, line, *other) {
            match system.turn(*other, handlers) {
                Ok(Turn::NotYet) => {}
                turn => return (*other, turn),
            }
        }
    }
    (actor, Ok(Turn::NotYet))
}

/// Whether the entry stands at index `place` of the history.
fn is_at(wanted: &[Entry], place: usize, entry: Entry) -> bool
    ensures { IsTrue result ↔ (slice_get wanted.now place ≡ Some entry) }
{
    match wanted.get(place) {
        Some(next) => *next == entry,
        None => false,
    }
}

/// Makes moves until the line's history is `wanted`, and tells in `picks` whose moves they are.
/// False if that wasn't done: nobody could move on, a log was full, or it took more than `PICKS`
/// moves. It is done if no other line takes part, and there is room for the history. However it
/// ends, the handlers are called for the runs that the moves end, and for no other. The only error
/// is `NoMemory`.
pub fn play_to<L: IrqLine, H: Handler>(
    alloc: Global,
    system: &mut System<'_, L>,
    line: LineNo,
    wanted: &[Entry],
    picks: &mut Vec<Actor>,
    handlers: &mut H,
) -> Result<bool, NoMemory>
    requires fresh { IsFresh system.old }
    requires empty { picks.old.items ≡ [] }
    ensures board { system.new.board ≡ system.old.board }
    ensures layout { system.new.layout ≡ system.old.layout }
    ensures play { IfOk result (λ found. found ≡ true
        → IsMade system.new picks.new.items line wanted.now) }
    ensures heard { IsHeardPlay system.new.board
        (λ runs. Heard H.hears runs handlers.old handlers.new) (reverse system.new.log) }
    ensures few { IfOk result (λ found. length picks.new.items ≤ 65536) }
    ensures alone { IsAlone system.old.board line wanted.now
        → IfOk result (λ found. found ≡ true) }
{
    system.board().is_board();
    let others = others_of(alloc, system.board(), line)?;
    let mut made = 0;
    while made < wanted.len() {
        if picks.len() >= PICKS {
            return Ok(false);
        }
        let actor = wanted[made].actor();
        let (mover, turn) = turn_of(system, line, actor, others.as_slice(), handlers);
        match turn {
            Ok(Turn::Moved { line: of, entry }) => {
                picks.push(mover)?;
                if line == of {
                    if !is_at(wanted, made, entry) {
                        return Ok(false);
                    }
                    made += 1;
                }
            }
            Ok(Turn::NotYet) => return Ok(false),
            Err(StepRefused::Full { .. }) => return Ok(false),
            Err(StepRefused::NoMemory) => return Err(NoMemory),
        }
    }
    Ok(true)
}

/// On a board of one line each legal history of the line is a play by itself, if the board's log
/// has room for it: the actors of its entries make it. The newest entry comes first.
pub fn alone_is_play()
    ensures law { (board : BoardSeen) (def : LineDef) (past : List Entry) → IsBoard board
        → defs_of board ≡ def ∷ [] → IsLegalPast def past → length past ≤ board.log
        → ArePicked board (map actor_of past) (map (λ e. (def.line, e)) past) }
{}

/// Put in place of a board's picks, the picks make each play begin with these moves, whatever picks
/// come after them.
pub fn picks_begin_the_play()
    ensures law { (board : BoardSeen) (picks : List Actor) (g : List Move) (more : List Actor)
        → ArePicked board picks g → IsChosen board (reverse picks ++ more) g more }
    ensures play { (board : BoardSeen) (picks : List Actor) (g : List Move) (more : List Actor)
        (h : List Move) (end : End) → ArePicked board picks g
        → Plays board (reverse picks ++ more) h end → (k : List Move) × (h ≡ k ++ g) }
{}
