//! What a search says of a line on which nothing more is due.
ghost use Rattle.std.specs.Prelude.{◌≡◌, ◌<◌, true, false, IfOk, Some, List, length, slice_get};
ghost use Rattle.irq_base.specs.declared.entries.Entry.{Entry};
ghost use Rattle.line_survey.specs.Kept.{IsReader};
ghost use Rattle.line_survey.specs.Rests.{IsStill, RestsAt, MovesAt};
ghost use Rattle.line_wanted.specs.Left.{Leaves};

use crate::reader::Reader;
use crate::searching::LineSearch;
use irq_base::NoMemory;
use line_wanted::Left;

impl LineSearch {
    /// Whether nothing is due in the state at the place, which was looked at.
    pub(crate) fn is_at_rest(&self, place: usize) -> bool
        requires { place < self.now.searched.looked }
        ensures rests { result ≡ true → RestsAt self.now.def self.now.searched.paths place }
        ensures moves { result ≡ false → MovesAt self.now.def self.now.searched.paths place }
    {
        self.searched.counts()[place] == 0
    }

    /// How the state at the place leaves the line, if nothing is due in it. The only error is
    /// `NoMemory`.
    pub(crate) fn left_at(&self, reader: &mut Reader, place: usize) -> Result<Left, NoMemory>
        requires there { place < length self.now.searched.paths }
        requires reader { IsReader self.now.def reader.old }
        ensures reader { IsReader self.now.def reader.new }
        ensures left { IfOk result (λ left. (p : List Entry)
            → slice_get self.now.searched.paths place ≡ Some p → IsStill self.now.def p
            → Leaves self.now.def left p) }
    {
        let Some(words) = self.searched.state(self.alloc, place)? else {
            unreachable!();
        };
        Ok(reader.left(&self.def, words.as_slice())?)
    }
}
