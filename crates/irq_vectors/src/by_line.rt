//! Judges the entries of a line by a line that is made of its definition.
ghost use Rattle.std.specs.Prelude.{◌≡◌, ◌≤◌, List, length, IfOk};
ghost use Rattle.irq_base.specs.declared.entries.Entry.{Entry};
ghost use Rattle.irq_base.specs.declared.lines.LineDef.{LineDef};
ghost use Rattle.irq_model.specs.Valid.{IsValid};
ghost use Rattle.irq_model.specs.ValidRuns.{HasValidRuns};
ghost use Rattle.log_check.specs.Judged.{Judged};
ghost use Rattle.irq_vectors.specs.Verdict.{IsVerdict};

use crate::judging::Verdict;
use irq_base::{Entry, History, LineDef, NoMemory};
use irq_line::{IrqLine, MakesLine};
use line_core::MakesCellLine;
use std::alloc::Global;

/// Whether the entries of the line are lawful, or which is the first that isn't: for each entry the
/// line makes a step of its actor, with the answer of the device's handler where a run ends, and
/// has to add this entry.
///
/// # Errors
///
/// `NoMemory` where memory was wanted and refused, and nothing else.
pub fn judge_by_line(alloc: Global, def: &LineDef, entries: &[Entry]) -> Result<Verdict, NoMemory>
    requires valid { IsValid def.now }
    requires runs { HasValidRuns def.now }
    requires fits { length entries.now ≤ def.now.log }
    ensures { IfOk result (λ verdict. IsVerdict def.now entries.now verdict) }
{
    judge_by(alloc, &MakesCellLine, def, entries)
}

/// The same by a line of any kind: a proof over a known one sees all of its parts, and is long.
fn judge_by<L: IrqLine, M: MakesLine<L>>(
    alloc: Global,
    lines: &M,
    def: &LineDef,
    entries: &[Entry],
) -> Result<Verdict, NoMemory>
    requires lines { M.makes lines.now 1 def.now }
    requires valid { IsValid def.now }
    requires fits { length entries.now ≤ def.now.log }
    ensures { IfOk result (λ verdict. IsVerdict def.now entries.now verdict) }
{
    let mut line = lines.make(alloc, 1, def)?;
    let history = history_of(alloc, entries)?;
    Ok(verdict_of(log_check::judge(&mut line, &history)?))
}

/// The verdict, if `first` is the number of the first entry that isn't due. None: all were due.
fn verdict_of(first: Option<u32>) -> Verdict
    ensures { (def : LineDef) (entries : List Entry) → Judged def entries first
        → IsVerdict def entries result }
{
    match first {
        Some(entry) => Verdict::Unlawful {
            entry: entry as usize,
        },
        None => Verdict::Lawful,
    }
}

fn history_of(alloc: Global, entries: &[Entry]) -> Result<History, NoMemory>
    ensures { IfOk result (λ history. history.entries ≡ entries.now) }
{
    let mut history = History::with_room(alloc, entries.len())?;
    for entry in entries {
        history.push(*entry);
    }
    Ok(history)
}
