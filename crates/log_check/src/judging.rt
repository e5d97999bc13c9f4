//! One line's history.
ghost use Rattle.std.specs.Prelude.{◌≡◌, ◌≤◌, ◌<◌, [], length, Ok, IfOk};
ghost use Rattle.irq_model.specs.Legal.{IsDue};
ghost use Rattle.log_check.specs.Judged.{AddsDue, Judged, Tried};

use callbacks::ByKind;
use irq_base::{Actor, Entry, History, NoMemory};
use irq_line::{IrqLine, StepRefused, Stepped};

/// The number, counted from 1, of the first entry that isn't due of its actor after the entries
/// before it; none if all are due. Nothing has happened to the line, and its log limit is at least
/// the number of entries.
pub fn judge<L: IrqLine>(line: &mut L, history: &History) -> Result<Option<u32>, NoMemory>
    requires new { (L.seen line.old).entries ≡ [] }
    requires fits { length history.now.entries ≤ (L.seen line.old).def.log }
    requires few { length history.now.entries ≤ 100000000 }
    ensures { IfOk result (λ first. Judged (L.seen line.old).def history.now.entries first) }
{
    for i in 0..history.len() {
        let Some(entry) = history.get(i) else {
            unreachable!();
        };
        if !adds(line, entry)? {
            return Ok(Some(i as u32 + 1));
        }
    }
    Ok(None)
}

/// Whether the entry is the one that is due of its actor; then the line has it.
#[inline(always)]
fn adds<L: IrqLine>(line: &mut L, entry: Entry) -> Result<bool, NoMemory>
    requires { length (L.seen line.old).entries < (L.seen line.old).def.log }
    ensures def { (L.seen line.new).def ≡ (L.seen line.old).def }
    ensures tried { IfOk result (λ added. Tried (L.seen line.old) entry added (L.seen line.new)) }
{
    let due = step(line, entry.actor())?;
    Ok(due == Some(entry))
}

/// A step of a line whose history isn't full, and the entry that it added. The handler of the
/// device's kind answers.
#[inline(always)]
pub(crate) fn step<L: IrqLine>(line: &mut L, actor: Actor) -> Result<Option<Entry>, NoMemory>
    requires { length (L.seen line.old).entries < (L.seen line.old).def.log }
    ensures def { (L.seen line.new).def ≡ (L.seen line.old).def }
    ensures added { IfOk result
        (λ due. AddsDue (L.seen line.old) actor due (L.seen line.new)) }
{
    match line.step(actor, &mut ByKind) {
        Ok(Stepped::Added(entry)) => Ok(Some(entry)),
        Ok(Stepped::NotYet) => Ok(None),
        Err(StepRefused::NoMemory) => Err(NoMemory),
        Err(StepRefused::Full { .. }) => unreachable!(),
    }
}
