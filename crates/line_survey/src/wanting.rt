//! The space of a line in which something is wanted.
ghost use Rattle.std.specs.Prelude.{◌≡◌, true, false, IfOk, map, Contains};
ghost use Rattle.irq_model.specs.Legal.{IsDue};
ghost use Rattle.irq_model.specs.Valid.{IsValid};
ghost use Rattle.irq_model.specs.ValidRuns.{HasValidRuns};
ghost use Rattle.line_survey.specs.Answers.{IsMetBy};
ghost use Rattle.line_words.specs.Node.{node};

use crate::reader::Reader;
use irq_base::{Entry, LineDef, NoMemory};
use line_space::LineSpace;
use line_wanted::Wanted;
use state_search::{Found, Space};
use std::alloc::Global;
use std::marker::Model;

/// The states of a line, and what is wanted of it. A row is met by a state in which it is due, a
/// way to be left by a state at rest that leaves the line so. Contracts see the line's definition
/// and what is wanted.
#[derive(Drop)]
pub(crate) struct WantedSpace {
    space: LineSpace,
    reader: Reader,
    wanted: Wanted,
}

impl Model for WantedSpace {
    ghost use Rattle.line_survey.specs.Wanting.{IsWantedSpace, WantedSeen};

    ghost Value = { WantedSeen };

    ghost view = { λ s. record { def = s.space; wanted = s.wanted } };

    ghost invariant = { IsWantedSpace };
}

impl WantedSpace {
    /// What is wanted of a line of that definition. The only error is `NoMemory`.
    pub(crate) fn new(alloc: Global, def: &LineDef, wanted: Wanted) -> Result<WantedSpace, NoMemory>
        requires valid { IsValid def.now }
        requires runs { HasValidRuns def.now }
        ensures { IfOk result (λ s. s ≡ record { def = def.now; wanted = wanted }) }
    {
        Ok(WantedSpace {
            space: LineSpace::new(alloc, def)?,
            reader: Reader::new(alloc, def)?,
            wanted,
        })
    }
}

/// Whether the entry is one of those that were found.
fn has_entry(found: &Found<Entry>, entry: Entry) -> bool
    ensures has { result ≡ true → Contains (map (λ f. f.0) found.now) entry }
    ensures lacks { result ≡ false → Contains (map (λ f. f.0) found.now) entry → ⊥ }
{
    for place in 0..found.len() {
        let (due, _) = found.get(place);
        if due == entry {
            return true;
        }
    }
    false
}

impl Space<Entry> for WantedSpace {
    ghost can = { λ s. IsDue s.def };

    ghost node = { λ s. node s.def };

    ghost wanted = { λ s. IsMetBy s.def s.wanted };

    fn first(&mut self, words: &mut Vec<u32>) -> Result<(), NoMemory> {
        self.space.first(words)
    }

    fn steps(&mut self, words: &[u32], found: &mut Found<Entry>) -> Result<(), NoMemory> {
        self.space.steps(words, found)
    }

    fn is_wanted(&mut self, words: &[u32], found: &Found<Entry>) -> Result<bool, NoMemory> {
        match self.wanted {
            Wanted::Row(entry) => Ok(has_entry(found, entry)),
            Wanted::Rest(left) => {
                if found.len() > 0 {
                    return Ok(false);
                }
                Ok(self.reader.left(self.space.def(), words)? == left)
            }
        }
    }
}
