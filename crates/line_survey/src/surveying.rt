//! The survey of a line.
ghost use Rattle.std.specs.Prelude.{◌≡◌, ◌<◌, ◌+◌, ◌==◌, ℕ, IfOk, IfSome, IfNone, OnOk, Some};
ghost use Rattle.std.specs.Prelude.{length};
ghost use Rattle.std.specs.Prelude.{sum, slice_get, take};
ghost use Rattle.line_survey.specs.Growing.{IsNoted};
ghost use Rattle.line_survey.specs.Kept.{IsReader};
ghost use Rattle.line_survey.specs.Rests.{IsStill};
ghost use Rattle.line_survey.specs.Surveyed.{AreSoMany, AreRests, IsSurvey};
ghost use Rattle.line_survey.specs.declared.survey.RestRow.{RestRow};
ghost use Rattle.state_search.specs.Seen.{cut_of};

use crate::reader::Reader;
use crate::searching::LineSearch;
use crate::survey::{RestRow, Survey};
use irq_base::NoMemory;
use line_wanted::Left;

/// The place of the row of that way, if there is one.
fn place_of(rests: &[RestRow], left: Left) -> Option<usize>
    ensures some { IfSome result (λ k. (r : RestRow) × (slice_get rests.now k ≡ Some r)
        × (r.left ≡ left)) }
    ensures none { IfNone result ((k : ℕ) (r : RestRow) → slice_get rests.now k ≡ Some r
        → r.left ≡ left → ⊥) }
{
    for i in 0..rests.len() {
        if rests[i].left == left {
            return Some(i);
        }
    }
    None
}

/// Counts one more state that leaves the line so; if it is the first, with the length of its
/// history. The only error is `NoMemory`.
fn note(rests: &mut Vec<RestRow>, left: Left, len: u32) -> Result<(), NoMemory>
    requires few { (k : ℕ) (r : RestRow) → slice_get rests.old.items k ≡ Some r
        → r.states < 100000000 }
    ensures { OnOk result (IsNoted left len rests.old.items rests.new.items) }
{
    match place_of(rests.as_slice(), left) {
        Some(place) => {
            rests[place].states += 1;
            Ok(())
        }
        None => {
            rests.push(RestRow {
                left,
                len,
                states: 1,
            })?;
            Ok(())
        }
    }
}

impl LineSearch {
    /// All that can come on the line. The only error is `NoMemory`.
    pub fn survey(&self) -> Result<Survey, NoMemory>
        ensures { IfOk result (IsSurvey self.now) }
    {
        Ok(Survey {
            states: self.searched.len() as u32,
            moves: self.moves(),
            rest: self.at_rest(),
            cut: self.cut(),
            rests: self.rests()?,
            rows: self.entry_rows()?,
        })
    }

    /// How many entries are due in all states together.
    fn moves(&self) -> u64
        ensures { result ≡ sum self.now.searched.counts }
    {
        let mut moves = 0;
        for count in self.searched.counts() {
            moves += *count as u64;
        }
        moves
    }

    /// In how many states nothing is due.
    fn at_rest(&self) -> u32
        ensures { AreSoMany (IsStill self.now.def)
            (take self.now.searched.looked self.now.searched.paths) result }
    {
        let mut rest = 0;
        for place in 0..self.searched.looked() {
            if self.is_at_rest(place) {
                rest += 1;
            }
        }
        rest
    }

    /// The ways in which the line can be left. The only error is `NoMemory`.
    fn rests(&self) -> Result<Vec<RestRow>, NoMemory>
        ensures { IfOk result (λ rests. AreRests self.now.def (cut_of self.now.searched)
            (take self.now.searched.looked self.now.searched.paths) rests.items) }
    {
        let mut reader = Reader::new(self.alloc, &self.def)?;
        self.rests_by(&mut reader)
    }

    /// The same, by reading each state at rest. The only error is `NoMemory`.
    fn rests_by(&self, reader: &mut Reader) -> Result<Vec<RestRow>, NoMemory>
        requires { IsReader self.now.def reader.old }
        ensures { IfOk result (λ rests. AreRests self.now.def (cut_of self.now.searched)
            (take self.now.searched.looked self.now.searched.paths) rests.items) }
    {
        let mut rests = Vec::new(self.alloc);
        for place in 0..self.searched.looked() {
            if self.is_at_rest(place) {
                let left = self.left_at(reader, place)?;
                note(&mut rests, left, self.depth(place))?;
            }
        }
        Ok(rests)
    }
}
