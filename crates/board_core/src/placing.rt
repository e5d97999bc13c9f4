//! Scripts that are placed after what stands in the lines' histories.
ghost use Rattle.std.specs.Prelude.{◌≡◌, [], IfOk, OnOk, length, map};
ghost use Rattle.irq_model.specs.Legal.{IsDue};
ghost use Rattle.board_play.specs.Lines.{BoardLine};
ghost use Rattle.board_core.specs.Inside.{drivers_of};
ghost use Rattle.board_core.specs.Numbers.{numbers_of_drivers};
ghost use Rattle.board_core.specs.Placing.{AreJoined, AreOwn, ArePlaced, CanJoin, HaveRoom};
ghost use Rattle.board_core.specs.Placing.{IsPlaceOfActor, with_entry};
ghost use Rattle.board_core.specs.Seen.{board_line, board_lines};

use crate::making::{empty_scripts, push_call};
use crate::numbers::place_of;
use crate::scripts::Script;
use crate::turning::advance;
use board_def::{Board, ScriptCall};
use irq_base::{Actor, Entry, LineDef, NoMemory};
use irq_line::{IrqLine, Stepped};
use std::alloc::Global;

/// Moves each script on past all that its driver has done on these lines: one pass over all
/// entries.
pub(crate) fn place_scripts<L: IrqLine>(
    alloc: Global,
    board: &Board,
    lines: &[L],
    driver_numbers: &[u32],
    scripts: &mut Vec<Script>,
) -> Result<(), NoMemory>
    requires numbers { driver_numbers.now ≡ numbers_of_drivers board.now.drivers }
    requires drivers { drivers_of scripts.old.items ≡ board.now.drivers }
    requires room { HaveRoom (board_lines (map L.seen lines.now)) scripts.old.items }
    ensures { OnOk result
        (ArePlaced (board_lines (map L.seen lines.now)) scripts.old.items scripts.new.items) }
{
    for k in 0..lines.len() {
        let own = own_scripts(alloc, board, &lines[k], driver_numbers)?;
        join(scripts, &own);
    }
    Ok(())
}

/// Moves each script on by what the script at the same place of `own` has done.
fn join(scripts: &mut Vec<Script>, own: &[Script])
    requires many { length scripts.old.items ≡ length own.now }
    requires fits { CanJoin own.now scripts.old.items }
    ensures { AreJoined own.now scripts.old.items scripts.new.items }
{
    for j in 0..scripts.len() {
        scripts[j].join(&own[j]);
    }
}

/// The drivers' scripts on one line alone, after what the line's entries tell.
fn own_scripts<L: IrqLine>(
    alloc: Global,
    board: &Board,
    line: &L,
    driver_numbers: &[u32],
) -> Result<Vec<Script>, NoMemory>
    requires { driver_numbers.now ≡ numbers_of_drivers board.now.drivers }
    ensures { IfOk result
        (λ own. AreOwn board.now.drivers (board_line (L.seen line.now)) own.items) }
{
    line.is_sound();
    let def = line.definition();
    let mut own = line_scripts(alloc, board, def, driver_numbers)?;
    let history = line.history();
    for i in 0..history.len() {
        let Some(entry) = history.get(i) else {
            unreachable!();
        };
        tell(&mut own, board, driver_numbers, entry);
    }
    Ok(own)
}

/// The script of the entry's driver goes on with the entry, if it is a driver's.
fn tell(own: &mut Vec<Script>, board: &Board, driver_numbers: &[u32], entry: Entry)
    requires numbers { driver_numbers.now ≡ numbers_of_drivers board.now.drivers }
    requires drivers { drivers_of own.old.items ≡ board.now.drivers }
    ensures { (x : BoardLine) → IsDue x.def entry x.past
        → AreOwn board.now.drivers x own.old.items
        → AreOwn board.now.drivers (with_entry entry x) own.new.items }
{
    board.is_board();
    let script = place_of_actor(board, driver_numbers, entry.actor());
    advance(own, script, &Ok(Stepped::Added(entry)));
}

/// The place of the driver that the actor is, if it is one.
fn place_of_actor(board: &Board, driver_numbers: &[u32], actor: Actor) -> Option<usize>
    requires { driver_numbers.now ≡ numbers_of_drivers board.now.drivers }
    ensures { IsPlaceOfActor driver_numbers.now actor result }
{
    board.is_board();
    match actor {
        Actor::Driver(driver) => place_of(driver_numbers, driver.0),
        Actor::Thread(..) | Actor::Cpu(_) => None,
    }
}

/// The drivers' scripts on one line alone, with no call complete.
fn line_scripts(
    alloc: Global,
    board: &Board,
    def: &LineDef,
    driver_numbers: &[u32],
) -> Result<Vec<Script>, NoMemory>
    requires { driver_numbers.now ≡ numbers_of_drivers board.now.drivers }
    ensures { IfOk result
        (λ own. AreOwn board.now.drivers (record { def = def.now; past = [] }) own.items) }
{
    board.is_board();
    let mut own = empty_scripts(alloc, board)?;
    for i in 0..def.calls.len() {
        let Some((driver, call)) = def.calls.get(i) else {
            unreachable!();
        };
        let script = place_of(driver_numbers, driver.0);
        let line = def.line;
        push_call(&mut own, script, Some(0), ScriptCall { driver, line, call })?;
    }
    Ok(own)
}
