//! The state that numbers tell.
ghost use Rattle.std.specs.Prelude.{◌≡◌, ◌≤◌, true, List, length, IfOk, OnOk};
ghost use Rattle.irq_base.specs.declared.entries.Entry.{Entry};
ghost use Rattle.irq_base.specs.declared.numbers.DriverNo.{DriverNo};
ghost use Rattle.irq_model.specs.Legal.{IsLegalPast};
ghost use Rattle.irq_model.specs.Valid.{IsValid};
ghost use Rattle.irq_model.specs.ValidRuns.{HasValidRuns};
ghost use Rattle.line_futures.specs.Canon.{canon};
ghost use Rattle.line_marks.specs.Scripts.{IsAt};
ghost use Rattle.line_marks.specs.State.{first_state, state_of};
ghost use Rattle.line_scripts.specs.Rows.{place_of, within_of};
ghost use Rattle.line_state.specs.Seen.{runs_seen};
ghost use Rattle.line_words.specs.Again.{unbitted, Fits};
ghost use Rattle.line_words.specs.Node.{node, drivers_in};
ghost use Rattle.line_words.specs.Reading.{with_fixed, with_tables, with_linked, go_all};
ghost use Rattle.line_words.specs.Reading.{linked_from, places_from};
ghost use Rattle.line_words.specs.Scripts.{AreScripts};
ghost use Rattle.line_words.specs.Runs.{AreSameRuns};
ghost use Rattle.line_words.specs.Tables.{HasTables, AreSameTables, bare};
ghost use Rattle.line_words.specs.Words.{has_more};
ghost use Rattle.run_scripts.specs.Runs.{AreRunsOf};

use crate::linking::link;
use crate::more::put_more;
use crate::parts::put_parts;
use crate::places::go_all;
use crate::rows::put_tables;
use crate::words::serves;
use irq_base::{DriverNo, LineDef, NoMemory};
use line_cell::Cell;
use line_scripts::Scripts;
use line_state::LineState;
use std::alloc::Global;

/// A state of a line of that definition to which nothing has happened. The only error is
/// `NoMemory`.
pub fn fresh(alloc: Global, def: &LineDef) -> Result<LineState<Cell>, NoMemory>
    requires valid { IsValid def.now }
    requires runs { HasValidRuns def.now }
    ensures first { IfOk result (λ s. s.state ≡ first_state def.now) }
    ensures tables { IfOk result (λ s. HasTables def.now s.state) }
    ensures runs { IfOk result (λ s. AreRunsOf def.now (runs_seen s)) }
{
    let cell = Cell::new(
        def.trigger,
        def.keeps,
        def.recalls,
        def.retriggers,
        serves(def),
    );
    LineState::new(alloc, def, cell)
}

/// Puts all that is read off the numbers, whatever history they are of. The only error is
/// `NoMemory`.
fn put_all(
    state: &mut LineState<Cell>,
    def: &LineDef,
    more: bool,
    drivers: &[DriverNo],
    scripts: &mut Scripts,
    words: &[u32],
) -> Result<(), NoMemory>
    requires valid { IsValid def.now }
    requires more { more ≡ has_more def.now }
    requires fits { Fits def.now drivers.now words.now }
    ensures state { OnOk result (state.new.state
        ≡ with_linked (linked_from def.now drivers.now words.now)
        (with_tables def.now words.now (with_fixed def.now words.now (bare state.old.state)))) }
    ensures tables { AreSameTables
        (with_tables def.now words.now (with_fixed def.now words.now (bare state.old.state)))
        state.new.state }
    ensures runs { AreSameRuns state.old state.new }
    ensures scripts { scripts.new ≡ go_all drivers.now (places_from def.now words.now) scripts.old }
{
    state.clear_actions();
    put_parts(state, def, words);
    let behind = put_tables(state, def, words);
    let places = put_more(state, def, more, behind);
    let linked = go_all(scripts, drivers, places);
    link(state, linked)
}

/// Reads the numbers into a state of a line of that definition, whatever it was before: it becomes
/// the state after a legal history with these numbers, as far as the future depends on it, that is
/// its canonical state, in which each one-shot action has a thread bit again, and the chips are
/// active. The drivers go to their places. `drivers` are those that have calls on the line, in the
/// order of the numbers, and `more` says whether the line has more than each (`has_more`). The only
/// error is `NoMemory`.
pub fn read_into(
    state: &mut LineState<Cell>,
    def: &LineDef,
    more: bool,
    drivers: &[DriverNo],
    scripts: &mut Scripts,
    words: &[u32],
) -> Result<(), NoMemory>
    requires valid { IsValid def.now }
    requires more { more ≡ has_more def.now }
    requires drivers { drivers.now ≡ drivers_in def.now.calls }
    requires scripts { AreScripts def.now scripts.old }
    requires tables { HasTables def.now state.old.state }
    requires runs { AreRunsOf def.now (runs_seen state.old) }
    requires past { (past : List Entry) × IsLegalPast def.now past
        × (words.now ≡ node def.now past) × (length past ≤ 100000000) }
    ensures state { OnOk result ((past : List Entry) → IsLegalPast def.now past
        → words.now ≡ node def.now past
        → unbitted state.new.state ≡ canon (state_of def.now past)) }
    ensures active { OnOk result (state.new.state.active ≡ true) }
    ensures tables { HasTables def.now state.new.state }
    ensures runs { AreRunsOf def.now (runs_seen state.new) }
    ensures scripts { AreScripts def.now scripts.new }
    ensures places { (past : List Entry) → IsLegalPast def.now past
        → words.now ≡ node def.now past
        → (r : DriverNo) → IsAt def.now past r (place_of scripts.new r) (within_of scripts.new r) }
{
    put_all(state, def, more, drivers, scripts, words)
}

/// The state after a legal history with these numbers, as `read_into` makes it. The only error is
/// `NoMemory`.
pub fn read(
    alloc: Global,
    def: &LineDef,
    more: bool,
    drivers: &[DriverNo],
    scripts: &mut Scripts,
    words: &[u32],
) -> Result<LineState<Cell>, NoMemory>
    requires valid { IsValid def.now }
    requires runs { HasValidRuns def.now }
    requires more { more ≡ has_more def.now }
    requires drivers { drivers.now ≡ drivers_in def.now.calls }
    requires scripts { AreScripts def.now scripts.old }
    requires past { (past : List Entry) × IsLegalPast def.now past
        × (words.now ≡ node def.now past) × (length past ≤ 100000000) }
    ensures state { IfOk result (λ s. (past : List Entry) → IsLegalPast def.now past
        → words.now ≡ node def.now past
        → unbitted s.state ≡ canon (state_of def.now past)) }
    ensures scripts { OnOk result (AreScripts def.now scripts.new) }
    ensures places { OnOk result ((past : List Entry) → IsLegalPast def.now past
        → words.now ≡ node def.now past
        → (r : DriverNo) → IsAt def.now past r (place_of scripts.new r) (within_of scripts.new r)) }
{
    let mut state = fresh(alloc, def)?;
    read_into(&mut state, def, more, drivers, scripts, words)?;
    Ok(state)
}
