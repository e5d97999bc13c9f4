//! What the bound on storms says of any line: if the log limit is at least the bound of the line's
//! definition, no step finds the log full.

ghost use Rattle.std.specs.Prelude.{◌≡◌, ◌≤◌, ℕ, Ok, IfOk, OnErr};
ghost use Rattle.irq_base.specs.declared.entries.Actor.{Actor};
ghost use Rattle.irq_base.specs.declared.numbers.LineNo.{LineNo};
ghost use Rattle.irq_model.specs.Next.{next};
ghost use Rattle.callbacks.specs.Heard.{Heard};
ghost use Rattle.irq_line.specs.Answers.{Answers, IsFull};
ghost use Rattle.irq_line.specs.Hearing.{Lacks, runs_by};
ghost use Rattle.irq_storms.specs.Lengths.{history_bound, IsBounded};

use callbacks::Hears;
use irq_base::{Actor, NoMemory};
use irq_line::{IrqLine, StepRefused, Stepped};

/// If the line has a bound and the log limit is at least that, the log is never full: whoever steps
/// the line next, and whoever has the answers, the answer isn't `Full`. A caller that calls this
/// before a step knows that the refusal doesn't come.
pub fn next_step_is_not_full<L: IrqLine>(line: &L)
    ensures not_full { IsBounded (L.seen line.now).def
        → history_bound (L.seen line.now).def ≤ (L.seen line.now).def.log
        → (actor : Actor) (of : LineNo) (len : ℕ) → IsFull (L.seen line.now) actor of len → ⊥ }
{
    line.is_sound();
}

/// `IrqLine::step` on a line whose log limit is at least its bound: the only error is `NoMemory`.
///
/// # Errors
///
/// `NoMemory` if memory was refused; if the history had room, the line may want memory for what is
/// due. Nothing has changed then, and no handler was called.
pub fn step_within_bound<L: IrqLine, E: Hears>(
    line: &mut L,
    actor: Actor,
    ears: &mut E,
) -> Result<Stepped<E::Lack>, NoMemory>
    requires bounded { IsBounded (L.seen line.old).def }
    requires ample { history_bound (L.seen line.old).def ≤ (L.seen line.old).def.log }
    ensures def { (L.seen line.new).def ≡ (L.seen line.old).def }
    ensures answer { IfOk result (λ answer. Answers (L.seen line.old) actor (Ok answer)
        (L.seen line.new)) }
    ensures heard { IfOk result (λ answer. Heard E.hears (runs_by (L.seen line.old) (Ok answer))
        ears.old ears.new) }
    ensures lacking { IfOk result (λ answer. Lacks E.lacks (L.seen line.old) actor ears.old
        (Ok answer)) }
    ensures refused { OnErr result (L.seen line.new ≡ L.seen line.old) }
    ensures unheard { OnErr result (ears.old ≡ ears.new) }
    ensures memory { OnErr result (1 ≤ (L.seen line.old).spare
        → L.may_want (next (L.seen line.old).def (L.seen line.old).entries actor)) }
{
    next_step_is_not_full(line);
    match line.step(actor, ears) {
        Ok(answer) => Ok(answer),
        Err(StepRefused::NoMemory) => Err(NoMemory),
        Err(StepRefused::Full { .. }) => unreachable!(),
    }
}
