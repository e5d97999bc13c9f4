//! The space.
ghost use Rattle.std.specs.Prelude.{◌≡◌, IfOk};
ghost use Rattle.irq_base.specs.declared.numbers.DriverNo.{DriverNo};
ghost use Rattle.irq_model.specs.Legal.{IsDue};
ghost use Rattle.irq_model.specs.Valid.{IsValid};
ghost use Rattle.irq_model.specs.ValidRuns.{HasValidRuns};
ghost use Rattle.line_scripts.specs.Rows.{place_of, within_of};
ghost use Rattle.line_words.specs.Node.{node};
ghost use Rattle.line_words.specs.Scripts.{AreScripts};

use crate::drivers::drivers_of;
use crate::moving::{add_all, push_actors, push_due};
use crate::scratch::Scratch;
use irq_base::{Actor, DriverNo, Entry, LineDef, NoMemory};
use line_scripts::Scripts;
use line_words::{fresh, has_more, write};
use state_search::{Found, Space};
use std::alloc::Global;
use std::marker::Model;

/// The states of a line, over all its legal histories: the labels are the entries that are due, and
/// none of the states is wanted. Contracts see the definition.
#[derive(Drop)]
pub struct LineSpace {
    alloc: Global,
    def: LineDef,
    more: bool,
    drivers: Vec<DriverNo>,
    scratch: Scratch,
    asked: Vec<Actor>,
    due: Vec<Actor>,
}

impl Model for LineSpace {
    ghost use Rattle.irq_base.specs.declared.lines.LineDef.{LineDef};
    ghost use Rattle.line_space.specs.Kept.{IsSpace};

    ghost Value = { LineDef };

    ghost view = { λ s. s.def };

    ghost invariant = { IsSpace };
}

impl LineSpace {
    /// The line's definition.
    pub fn def(&self) -> &LineDef
        ensures { result.now ≡ self.now }
    {
        &self.def
    }

    /// The space of a line of that definition. The only error is `NoMemory`.
    pub fn new(alloc: Global, def: &LineDef) -> Result<LineSpace, NoMemory>
        requires valid { IsValid def.now }
        requires runs { HasValidRuns def.now }
        ensures { IfOk result (λ space. space ≡ def.now) }
    {
        let more = has_more(def);
        let drivers = drivers_of(alloc, &def.calls)?;
        let scratch = Scratch::new(alloc, def)?;
        let def = def.try_clone(alloc)?;
        Ok(LineSpace {
            alloc,
            def,
            more,
            drivers,
            scratch,
            asked: Vec::new(alloc),
            due: Vec::new(alloc),
        })
    }
}

/// The scripts of the definition's calls; none has begun. The only error is `NoMemory`.
fn fresh_scripts(alloc: Global, def: &LineDef) -> Result<Scripts, NoMemory>
    ensures scripts { IfOk result (λ s. AreScripts def.now s) }
    ensures places { IfOk result (λ s. (r : DriverNo) → place_of s r ≡ 0) }
    ensures withins { IfOk result (λ s. (r : DriverNo) → within_of s r ≡ 0) }
{
    Scripts::new(alloc, &def.calls)
}

impl Space<Entry> for LineSpace {
    ghost can = { λ def. IsDue def };

    ghost node = { λ def. node def };

    ghost wanted = { λ def past. ⊥ };

    fn first(&mut self, words: &mut Vec<u32>) -> Result<(), NoMemory> {
        let scripts = fresh_scripts(self.alloc, &self.def)?;
        let state = fresh(self.alloc, &self.def)?;
        let drivers = self.drivers.as_slice();
        write(&self.def, self.more, drivers, &state, &scripts, words)
    }

    fn steps(&mut self, words: &[u32], found: &mut Found<Entry>) -> Result<(), NoMemory> {
        let drivers = self.drivers.as_slice();
        self.scratch.read(&self.def, self.more, drivers, words)?;
        self.asked.clear();
        push_actors(&mut self.asked, &self.def, drivers, &self.scratch.state)?;
        self.due.clear();
        let asked = self.asked.as_slice();
        push_due(&mut self.due, &self.def, &self.scratch, asked)?;
        let due = self.due.as_slice();
        let more = self.more;
        add_all(
            &mut self.scratch,
            &self.def,
            more,
            drivers,
            words,
            due,
            found,
        )
    }

    fn is_wanted(&mut self, words: &[u32], found: &Found<Entry>) -> Result<bool, NoMemory> {
        let _ = words;
        let _ = found;
        Ok(false)
    }
}
