//! One row.
ghost use Rattle.std.specs.Prelude.{◌≡◌, ◌++◌, codes, MatchOption};
ghost use Rattle.irq_base.specs.declared.entries.Entry.{Entry};
ghost use Rattle.irq_base.specs.declared.numbers.LineNo.{LineNo};
ghost use Rattle.log_text.specs.Formed.{IsRowOf};

use crate::entries::entry;
use crate::numbers::number;
use crate::words::Words;
use irq_base::{Entry, LineNo};

/// The line and the entry of a row without its line feed; none if it isn't the row of an entry.
pub fn read_row(row: &[u8]) -> Option<(LineNo, Entry)>
    ensures { MatchOption result
        ((line : LineNo) (e : Entry) → IsRowOf (row.now ++ codes "\n") line e → ⊥)
        (λ read. IsRowOf (row.now ++ codes "\n") read.0 read.1) }
{
    let mut words = Words::of_row(row);
    let line = LineNo(number(&mut words));
    let entry = entry(&mut words);
    if words.is_done() {
        Some((line, entry))
    } else {
        None
    }
}
