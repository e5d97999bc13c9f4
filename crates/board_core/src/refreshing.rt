//! What a system keeps of its lines and scripts, to find its next actor at once.
ghost use Rattle.std.specs.Prelude.{◌≡◌, ◌<◌, ◌≤◌, IfOk, IfSome, length, map};
ghost use Rattle.board_core.specs.Numbers.{numbers_of_lines, numbers_of_drivers};
ghost use Rattle.board_core.specs.ReadyFor.{IsReadinessOf, IsReadyFor};
ghost use Rattle.board_core.specs.Refreshed.{HasLines, HasDrivers, IsRefreshed};

use crate::scripts::Script;
use board_def::Board;
use board_ready::{LineReadiness, ReadyActors};
use irq_base::NoMemory;
use irq_line::IrqLine;
use std::alloc::Global;

/// The line and the driver at these places are asked again.
#[inline(always)]
pub(crate) fn refresh<L: IrqLine>(
    ready: &mut ReadyActors,
    lines: &[L],
    scripts: &[Script],
    line: usize,
    script: Option<usize>,
)
    requires line { line < length lines.now }
    requires line_part { line < length ready.old.lines }
    requires script { IfSome script (λ j. j < length scripts.now) }
    requires driver { IfSome script (λ j. j < length ready.old.drivers) }
    ensures { IsRefreshed (map L.seen lines.now) scripts.now line script ready.old ready.new }
{
    ready.set_line(line, readiness_of(&lines[line]));
    if let Some(j) = script {
        ready.set_driver(j, scripts[j].call());
    }
}

/// The ready actors of these lines and scripts.
pub(crate) fn make_ready<L: IrqLine>(
    alloc: Global,
    lines: &[L],
    scripts: &[Script],
) -> Result<ReadyActors, NoMemory>
    requires few_lines { length lines.now ≤ 64 }
    requires few_scripts { length scripts.now ≤ 64 }
    ensures { IfOk result (λ ready. IsReadyFor (map L.seen lines.now) scripts.now ready) }
{
    let mut ready = ReadyActors::new(alloc, lines.len(), scripts.len())?;
    ask_lines(&mut ready, lines);
    ask_scripts(&mut ready, scripts);
    Ok(ready)
}

/// The numbers of the lines.
pub(crate) fn numbers_of_lines<L: IrqLine>(alloc: Global, lines: &[L]) -> Result<Vec<u32>, NoMemory>
    ensures { IfOk result (λ numbers. numbers.items ≡ numbers_of_lines (map L.seen lines.now)) }
{
    let mut numbers = Vec::new(alloc);
    for i in 0..lines.len() {
        numbers.push(lines[i].definition().line.0)?;
    }
    Ok(numbers)
}

/// The numbers of the board's drivers.
pub(crate) fn numbers_of_drivers(alloc: Global, board: &Board) -> Result<Vec<u32>, NoMemory>
    ensures { IfOk result (λ numbers. numbers.items ≡ numbers_of_drivers board.now.drivers) }
{
    let mut numbers = Vec::new(alloc);
    for i in 0..board.drivers_len() {
        let Some(driver) = board.driver(i) else {
            unreachable!();
        };
        numbers.push(driver.0)?;
    }
    Ok(numbers)
}

/// Who waits on the line, and what stands in the way there.
#[inline(always)]
fn readiness_of<L: IrqLine>(line: &L) -> LineReadiness
    ensures { IsReadinessOf (L.seen line.now) result }
{
    LineReadiness {
        thread: line.lowest_thread(),
        flow: line.in_flow(),
        spins: line.spins(),
        taker: line.taker(),
        blocks: line.blocks(),
    }
}

/// Each line is asked.
fn ask_lines<L: IrqLine>(ready: &mut ReadyActors, lines: &[L])
    requires { length ready.old.lines ≡ length lines.now }
    ensures lines { HasLines (map L.seen lines.now) (length lines.now) ready.new }
    ensures all { length ready.new.lines ≡ length ready.old.lines }
    ensures drivers { ready.new.drivers ≡ ready.old.drivers }
{
    for k in 0..lines.len() {
        ready.set_line(k, readiness_of(&lines[k]));
    }
}

/// Each driver is asked.
fn ask_scripts(ready: &mut ReadyActors, scripts: &[Script])
    requires { length ready.old.drivers ≡ length scripts.now }
    ensures drivers { HasDrivers scripts.now (length scripts.now) ready.new }
    ensures all { length ready.new.drivers ≡ length ready.old.drivers }
    ensures lines { ready.new.lines ≡ ready.old.lines }
{
    for j in 0..scripts.len() {
        ready.set_driver(j, scripts[j].call());
    }
}
