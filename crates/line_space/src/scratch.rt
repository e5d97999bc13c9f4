//! The state that is at hand.
ghost use Rattle.std.specs.Prelude.{◌≡◌, ◌++◌, ◌∷◌, [], ◌<◌, ◌≤◌, ◌^◌, IfOk, OnOk};
ghost use Rattle.irq_base.specs.declared.numbers.DriverNo.{DriverNo};
ghost use Rattle.irq_model.specs.Valid.{IsValid};
ghost use Rattle.irq_model.specs.ValidRuns.{HasValidRuns};
ghost use Rattle.line_futures.specs.Canon.{canon};
ghost use Rattle.line_scripts.specs.Rows.{place_of};
ghost use Rattle.line_space.specs.Reading.{IsKept, IsRead};
ghost use Rattle.line_space.specs.Stepping.{IsReached};
ghost use Rattle.line_words.specs.Node.{drivers_in};
ghost use Rattle.line_words.specs.Told.{places_told, state_told};
ghost use Rattle.line_words.specs.Words.{has_more};

use irq_base::{DriverNo, Entry, LineDef, NoMemory};
use line_cell::Cell;
use line_scripts::Scripts;
use line_state::LineState;
use line_words::{fresh, read_into, write};
use state_search::Found;
use std::alloc::Global;

/// A state of the line and how far its drivers are, into which one state's numbers are read after
/// another's, and room for the numbers of the state after it.
#[derive(Drop)]
pub(crate) struct Scratch {
    pub(crate) state: LineState<Cell>,
    pub(crate) scripts: Scripts,
    pub(crate) after: Vec<u32>,
}

impl Scratch {
    /// Nothing was read yet. The only error is `NoMemory`.
    pub(crate) fn new(alloc: Global, def: &LineDef) -> Result<Scratch, NoMemory>
        requires valid { IsValid def.now }
        requires runs { HasValidRuns def.now }
        ensures { IfOk result (IsKept def.now) }
    {
        Ok(Scratch {
            state: fresh(alloc, def)?,
            scripts: Scripts::new(alloc, &def.calls)?,
            after: Vec::new(alloc),
        })
    }

    /// Reads the numbers, and makes room for one more action. The only error is `NoMemory`.
    pub(crate) fn read(
        &mut self,
        def: &LineDef,
        more: bool,
        drivers: &[DriverNo],
        words: &[u32],
    ) -> Result<(), NoMemory>
        requires valid { IsValid def.now }
        requires more { more ≡ has_more def.now }
        requires drivers { drivers.now ≡ drivers_in def.now.calls }
        requires reached { IsReached def.now words.now }
        requires kept { IsKept def.now self.old }
        ensures kept { IsKept def.now self.new }
        ensures read { OnOk result (IsRead def.now words.now self.new) }
        ensures room { OnOk result (1 ≤ self.new.state.spare) }
    {
        read_into(
            &mut self.state,
            def,
            more,
            drivers,
            &mut self.scripts,
            words,
        )?;
        self.state.reserve()
    }

    /// Adds the entry, and the numbers of this state. The only error is `NoMemory`.
    pub(crate) fn add(
        &mut self,
        def: &LineDef,
        more: bool,
        drivers: &[DriverNo],
        entry: Entry,
        found: &mut Found<Entry>,
    ) -> Result<(), NoMemory>
        requires few { (r : DriverNo) → place_of self.old.scripts r < 2 ^ 32 }
        ensures state { self.new.state ≡ self.old.state }
        ensures scripts { self.new.scripts ≡ self.old.scripts }
        ensures found { OnOk result (found.new ≡ found.old ++ (
          entry,
          state_told more def.now (canon self.old.state.state)
              (places_told self.old.scripts drivers.now),
        ) ∷ []) }
    {
        self.after.clear();
        write(
            def,
            more,
            drivers,
            &self.state,
            &self.scripts,
            &mut self.after,
        )?;
        found.push(entry, self.after.as_slice())
    }
}
