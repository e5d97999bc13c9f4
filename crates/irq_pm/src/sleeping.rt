//! What a line keeps while a driver has it asleep: the driver disables it and waits, as suspend
//! does (`kernel/irq/pm.c`), and later enables it. Sentences over the definitions alone, with no
//! line of code, of every legal history and of any driver. Each is the clause of a function with an
//! empty body, so that crates above can call it or cite its lemma. Worked histories are closed
//! theorems in `proofs/SleepRows.antt`.

ghost use Rattle.std.specs.Prelude.{◌≡◌, ℕ, true, List, [], ◌∷◌, reverse, IsSome, Some, None};
ghost use Rattle.irq_base.specs.declared.calls.Call.TheVariants as calls;
ghost use Rattle.irq_base.specs.declared.lines.LineDef.{LineDef};
ghost use Rattle.irq_base.specs.declared.numbers.CpuNo.{CpuNo};
ghost use Rattle.irq_base.specs.declared.numbers.DevNo.{DevNo};
ghost use Rattle.irq_base.specs.declared.numbers.DriverNo.{DriverNo};
ghost use Rattle.irq_base.specs.declared.entries.Actor.TheVariants as actors;
ghost use Rattle.irq_base.specs.declared.entries.Entry.{Entry};
ghost use Rattle.irq_model.specs.Due.{calls_by, due_call};
ghost use Rattle.irq_model.specs.Legal.{IsLegal};
ghost use Rattle.irq_model.specs.Next.{next};
ghost use Rattle.irq_model.specs.Valid.{IsValid};
ghost use Rattle.irq_model.specs.ValidRuns.{HasValidRuns};
ghost use Rattle.irq_pm.specs.Sleeping.{is_suspended, is_left_alone, others_only_ask};
ghost use Rattle.irq_pm.specs.Sleeping.{has_calm_runs};
ghost use Rattle.irq_pm.specs.SleptLines.{SleepsSoundly, ResumesAsItWas};

/// While a line sleeps it is disabled and at rest: no handler is called, no thread begins a run,
/// and what is taken is left pending.
pub fn sleeps_soundly()
    ensures law { (def : LineDef) (r : DriverNo) (h : List Entry) → IsValid def → IsLegal def h
        → SleepsSoundly def r h }
{}

/// The enable finds the line as the disable left it: as deep as before, unless the rule on spurious
/// interrupts killed it, and what came meanwhile is handled next.
pub fn resumes_as_it_was()
    ensures law { (def : LineDef) (r : DriverNo) (h : List Entry) → IsValid def → IsLegal def h
        → ResumesAsItWas def r h }
{}

/// A driver whose calls on the line are one disable and one enable disturbs nothing between the
/// two, so a line is left alone as long as the other drivers only ask, if no run of its devices
/// disables, enables, frees or waits.
pub fn left_alone()
    ensures law { (def : LineDef) (r : DriverNo) (h : List Entry) → IsLegal def h
        → has_calm_runs def ≡ true
        → calls_by r def.calls ≡ calls.Disable ∷ calls.Enable ∷ []
        → is_suspended r (reverse h) ≡ true → others_only_ask r (reverse h) ≡ true
        → is_left_alone r (reverse h) ≡ true }
{}

/// Falling asleep never gets stuck: once no thread and no processor of the line may add an entry, a
/// driver whose disable isn't complete may, if no run of the line's devices disables, enables,
/// frees
/// or waits. The scripts of runs are as a board may have them.
pub fn falls_asleep()
    ensures law { (def : LineDef) (h : List Entry) (r : DriverNo) (n : ℕ)
        → HasValidRuns def → has_calm_runs def ≡ true
        → ((d : DevNo) → next def h (actors.Thread d) ≡ None)
        → ((c : CpuNo) → next def h (actors.Cpu c) ≡ None)
        → due_call def r (reverse h) ≡ Some (calls.Disable, n)
        → IsSome (next def h (actors.Driver r)) }
{}
