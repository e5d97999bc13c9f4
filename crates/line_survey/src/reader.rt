//! States at rest are read one after another.
ghost use Rattle.std.specs.Prelude.{◌≡◌, ◌≤◌, IfOk, List, length};
ghost use Rattle.irq_base.specs.declared.entries.Entry.{Entry};
ghost use Rattle.irq_model.specs.Legal.{IsLegalPast};
ghost use Rattle.irq_model.specs.Valid.{IsValid};
ghost use Rattle.irq_model.specs.ValidRuns.{HasValidRuns};
ghost use Rattle.line_survey.specs.Kept.{IsReader};
ghost use Rattle.line_survey.specs.Rests.{IsStill};
ghost use Rattle.line_wanted.specs.Left.{Leaves};
ghost use Rattle.line_words.specs.Node.{node};

use crate::leaving::left_in;
use irq_base::{DriverNo, LineDef, NoMemory};
use line_cell::Cell;
use line_scripts::Scripts;
use line_space::drivers_of;
use line_state::LineState;
use line_wanted::Left;
use line_words::{fresh, has_more, read_into};
use std::alloc::Global;

/// A state of a line and how far its drivers are, into which the numbers of one state after another
/// are read.
#[derive(Drop)]
pub(crate) struct Reader {
    more: bool,
    drivers: Vec<DriverNo>,
    state: LineState<Cell>,
    scripts: Scripts,
}

impl Reader {
    /// Nothing was read yet. The only error is `NoMemory`.
    pub(crate) fn new(alloc: Global, def: &LineDef) -> Result<Reader, NoMemory>
        requires valid { IsValid def.now }
        requires runs { HasValidRuns def.now }
        ensures { IfOk result (IsReader def.now) }
    {
        Ok(Reader {
            more: has_more(def),
            drivers: drivers_of(alloc, &def.calls)?,
            state: fresh(alloc, def)?,
            scripts: Scripts::new(alloc, &def.calls)?,
        })
    }

    /// How the state with these numbers leaves the line, if nothing is due in it. The only error is
    /// `NoMemory`.
    pub(crate) fn left(&mut self, def: &LineDef, words: &[u32]) -> Result<Left, NoMemory>
        requires valid { IsValid def.now }
        requires reader { IsReader def.now self.old }
        requires past { (past : List Entry) × IsLegalPast def.now past
            × (words.now ≡ node def.now past) × (length past ≤ 100000000) }
        ensures reader { IsReader def.now self.new }
        ensures left { IfOk result (λ left. (past : List Entry) → HasValidRuns def.now
            → IsLegalPast def.now past
            → words.now ≡ node def.now past → IsStill def.now past
            → Leaves def.now left past) }
    {
        let drivers = self.drivers.as_slice();
        read_into(
            &mut self.state,
            def,
            self.more,
            drivers,
            &mut self.scripts,
            words,
        )?;
        Ok(left_in(def, &self.state, &self.scripts))
    }
}
