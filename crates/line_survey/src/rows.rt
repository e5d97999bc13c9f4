//! What a search says of rows.
ghost use Rattle.std.specs.Prelude.{◌≡◌, IfOk};
ghost use Rattle.line_survey.specs.Surveyed.{rows_of};

use crate::searching::LineSearch;
use crate::survey::EntryRow;
use irq_base::NoMemory;

impl LineSearch {
    /// The rows that can come, each with the length of a shortest history. The only error is
    /// `NoMemory`.
    pub(crate) fn entry_rows(&self) -> Result<Vec<EntryRow>, NoMemory>
        ensures { IfOk result (λ rows. rows.items
            ≡ rows_of self.now.searched.paths self.now.searched.firsts) }
    {
        let mut rows = Vec::new(self.alloc);
        for first in self.searched.firsts() {
            rows.push(EntryRow {
                entry: first.label,
                len: self.depth(first.place as usize) + 1,
            })?;
        }
        Ok(rows)
    }
}
