//! What a system is made of.
ghost use Rattle.std.specs.Prelude.{◌≡◌, ◌<◌, ℕ, Some, List, IfOk, IfSome, OnOk, length, map};
ghost use Rattle.std.specs.Option.{option_map};
ghost use Rattle.board_def.specs.Layout.{layout_of};
ghost use Rattle.domain_rules.specs.declared.layouts.Placement.TheVariants as placements;
ghost use Rattle.board_play.specs.Lines.{defs_of};
ghost use Rattle.board_core.specs.Making.{MakesAll, IsNewLine, AreNew, AreCut, AreNewScripts};
ghost use Rattle.board_core.specs.Making.{AreSound, with_call};
ghost use Rattle.board_core.specs.Numbers.{numbers_of_defs, numbers_of_drivers};

use crate::numbers::place_of;
use crate::scripts::{PlacedCall, Script};
use board_def::{Board, Layout, Placement, ScriptCall};
use irq_base::{LineDef, NoMemory};
use irq_line::{IrqLine, MakesLine};
use std::alloc::Global;

/// The lines that take part, in the board's order, each as the maker makes it.
pub fn make_lines<L: IrqLine, M: MakesLine<L>>(
    alloc: Global,
    board: &Board,
    layout: &Layout,
    maker: &M,
) -> Result<Vec<L>, NoMemory>
    requires layout { layout.now ≡ layout_of board.now }
    requires makes { MakesAll (M.makes maker.now) board.now (layout_of board.now) }
    ensures { IfOk result (λ lines. AreNew board.now (map L.seen lines.items)) }
{
    let defs = board.line_defs(alloc)?;
    let mut lines = Vec::new(alloc);
    for i in 0..defs.len() {
        if let Some(line) = make_line::<L, M>(alloc, layout.get(i), &defs[i], maker)? {
            lines.push(line)?;
        }
    }
    Ok(lines)
}

/// The line that the maker makes of the definition; none if the layout refused it.
fn make_line<L: IrqLine, M: MakesLine<L>>(
    alloc: Global,
    placement: Option<Placement>,
    def: &LineDef,
    maker: &M,
) -> Result<Option<L>, NoMemory>
    requires makes { (virq : ℕ) (path : List (ℕ × ℕ))
        → placement ≡ Some (placements.Mapped virq path) → M.makes maker.now virq def.now }
    ensures { IfOk result (λ made. IsNewLine def.now placement (option_map L.seen made)) }
{
    match placement {
        Some(Placement::Mapped { virq, .. }) => {
            let line = maker.make(alloc, virq, def)?;
            Ok(Some(line))
        }
        _ => Ok(None),
    }
}

/// A script for each driver, with no call complete: one pass over the board's calls.
pub(crate) fn make_scripts(
    alloc: Global,
    board: &Board,
    line_numbers: &[u32],
    driver_numbers: &[u32],
) -> Result<Vec<Script>, NoMemory>
    requires lines { line_numbers.now ≡ numbers_of_defs (defs_of board.now) }
    requires drivers { driver_numbers.now ≡ numbers_of_drivers board.now.drivers }
    ensures { IfOk result (λ scripts. AreNewScripts board.now scripts.items) }
{
    board.is_board();
    let mut scripts = empty_scripts(alloc, board)?;
    for call in board.calls() {
        let script = place_of(driver_numbers, call.driver.0);
        let place = place_of(line_numbers, call.line.0);
        push_call(&mut scripts, script, place, *call)?;
    }
    Ok(scripts)
}

/// A script without calls for each driver.
pub(crate) fn empty_scripts(alloc: Global, board: &Board) -> Result<Vec<Script>, NoMemory>
    ensures { IfOk result (λ scripts. AreCut board.now 0 scripts.items) }
{
    let mut scripts = Vec::new(alloc);
    for i in 0..board.drivers_len() {
        let Some(driver) = board.driver(i) else {
            unreachable!();
        };
        scripts.push(Script::new(alloc, driver))?;
    }
    Ok(scripts)
}

/// Adds the call at the end of the script at place `script`. Nothing changes if its driver has no
/// script, or if its line takes no part and so has no `place`.
pub(crate) fn push_call(
    scripts: &mut Vec<Script>,
    script: Option<usize>,
    place: Option<usize>,
    call: ScriptCall,
) -> Result<(), NoMemory>
    requires { IfSome script (λ j. j < length scripts.old.items) }
    ensures { OnOk result (scripts.new.items ≡ with_call script place call scripts.old.items) }
{
    if let (Some(j), Some(place)) = (script, place) {
        scripts[j].push(PlacedCall { place, call })?;
    }
    Ok(())
}

/// What holds of each line at every moment.
pub(crate) fn are_sound<L: IrqLine>(lines: &[L])
    ensures { AreSound (map L.seen lines.now) }
{
    for i in 0..lines.len() {
        lines[i].is_sound();
    }
}
