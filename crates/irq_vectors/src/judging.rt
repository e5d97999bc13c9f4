//! Judges the entries of a line by the reference program for the entry that is due (`plain_next`).
ghost use Rattle.std.specs.Prelude.{◌≡◌, ◌+◌, ◌≤◌, ◌↔◌, length, reverse, IfOk, IsTrue};
ghost use Rattle.irq_model.specs.Legal.{IsDue};
ghost use Rattle.irq_vectors.specs.Verdict.{IsVerdict};

use irq_base::{Entry, History, LineDef, NoMemory};
use plain_next::next_slow;
use std::alloc::Global;
use std::fmt;

/// The verdict on the entries of a line.
#[derive(Clone, Copy, Debug, PartialEq, Eq)]
pub enum Verdict {
    /// Each entry is due of its actor after the entries before it.
    Lawful,
    /// This entry, counted from 1, is the first that isn't due.
    Unlawful { entry: usize },
}

impl fmt::Display for Verdict {
    fn fmt<W: fmt::Write>(&self, f: &mut fmt::Formatter<W>) -> fmt::Result {
        match self {
            Verdict::Lawful => write!(f, "lawful"),
            Verdict::Unlawful { entry } => write!(f, "unlawful {entry}"),
        }
    }
}

/// Whether the entries of the line are lawful, or which is the first that isn't.
///
/// # Errors
///
/// `NoMemory` where memory was wanted and refused, and nothing else.
pub fn judge(alloc: Global, def: &LineDef, entries: &[Entry]) -> Result<Verdict, NoMemory>
    requires few { length entries.now ≤ 100000000 }
    requires cpus { def.now.cpus ≤ 32 }
    requires devices { length def.now.devices ≤ 256 }
    ensures { IfOk result (λ verdict. IsVerdict def.now entries.now verdict) }
{
    let mut history = History::with_room(alloc, entries.len())?;
    for (i, entry) in entries.iter().enumerate() {
        if !is_due(alloc, def, &history, *entry)? {
            return Ok(Verdict::Unlawful { entry: i + 1 });
        }
        history.push(*entry);
    }
    Ok(Verdict::Lawful)
}

/// Whether the entry is due of its actor after the history.
fn is_due(alloc: Global, def: &LineDef, history: &History, entry: Entry) -> Result<bool, NoMemory>
    requires few { length history.now.entries ≤ 100000000 }
    requires cpus { def.now.cpus ≤ 32 }
    requires devices { length def.now.devices ≤ 256 }
    ensures { IfOk result (λ due. IsTrue due ↔ IsDue def.now entry (reverse history.now.entries)) }
{
    let due = next_slow(alloc, def, history, entry.actor())?;
    Ok(due == Some(entry))
}
