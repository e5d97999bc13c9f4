//! The actors of a line in order, and what holds if they rest, over the definitions alone. Each law
//! is the clause of a function with an empty body, so that crates above can call it or cite its
//! lemma.
#![tactic(auto)]

ghost use Rattle.std.specs.Prelude.{◌≡◌, ◌⊎◌, false, ◌||◌, IsSome, Some, None, List, reverse};
ghost use Rattle.irq_base.specs.declared.lines.LineDef.{LineDef};
ghost use Rattle.irq_base.specs.declared.numbers.CpuNo.{CpuNo};
ghost use Rattle.irq_base.specs.declared.numbers.DevNo.{DevNo};
ghost use Rattle.irq_base.specs.declared.numbers.DriverNo.{DriverNo};
ghost use Rattle.irq_base.specs.declared.entries.Actor.{Actor};
ghost use Rattle.irq_base.specs.declared.entries.Actor.TheVariants as actors;
ghost use Rattle.irq_base.specs.declared.entries.Entry.{Entry};
ghost use Rattle.irq_model.specs.Next.{next};
ghost use Rattle.irq_model.specs.Legal.{IsLegal};
ghost use Rattle.irq_model.specs.Rounds.{flow, has_flow};
ghost use Rattle.irq_model.specs.Threads.{is_woken, is_running};
ghost use Rattle.irq_model.specs.Valid.{IsValid};
ghost use Rattle.irq_model.specs.ValidRuns.{HasValidRuns, NeverWaits};
ghost use Rattle.irq_model.specs.Waits.{IsAtRest, IsHungPast, IsLowestHungPast};
ghost use Rattle.irq_model.specs.Waits.{NobodyEndsWaits};
ghost use Rattle.play_laws.specs.Actors.{actors_of, IsOneOf};

/// Only the line's own actors ever have a due entry.
pub fn others_rest()
    ensures law { (def : LineDef) (h : List Entry) (a : Actor) → IsValid def → IsLegal def h
        → (IsOneOf a (actors_of def) → ⊥) → next def h a ≡ None }
{}

/// If after a legal history none of the line's own actors has a due entry, no actor has.
pub fn rest_is_still()
    ensures law { (def : LineDef) (h : List Entry) → IsValid def → IsLegal def h
        → ((a : Actor) → IsOneOf a (actors_of def) → next def h a ≡ None) → (a : Actor)
        → next def h a ≡ None }
{}

/// No standstill: if after a legal history none of the line's own actors has a due entry, and none
/// of them is hung, the line is at rest. The scripts of runs are as a board may have them.
pub fn rest_is_at_rest()
    ensures law { (def : LineDef) (h : List Entry) → IsValid def → HasValidRuns def
        → IsLegal def h → ((a : Actor) → IsOneOf a (actors_of def) → next def h a ≡ None)
        → ((a : Actor) → IsOneOf a (actors_of def) → IsHungPast def (reverse h) a → ⊥)
        → IsAtRest def h }
{}

/// Where no run waits nobody hangs: if after a legal history none of the line's own actors has a
/// due entry, the line is at rest.
pub fn unwaiting_rests()
    ensures law { (def : LineDef) (h : List Entry) → IsValid def → HasValidRuns def
        → NeverWaits def → IsLegal def h
        → ((a : Actor) → IsOneOf a (actors_of def) → next def h a ≡ None) → IsAtRest def h }
    ensures unhung { (def : LineDef) (h : List Entry) (a : Actor) → IsValid def
        → HasValidRuns def → NeverWaits def → IsLegal def h → IsHungPast def (reverse h) a → ⊥ }
{}

/// After a legal history the processor of the flow in progress has a due entry, or waits for
/// itself.
pub fn flow_goes_on()
    ensures law { (def : LineDef) (h : List Entry) (c : CpuNo) → IsValid def
        → HasValidRuns def → IsLegal def h → flow def (reverse h) ≡ Some c
        → IsSome (next def h (actors.Cpu c)) ⊎ IsHungPast def (reverse h) (actors.Cpu c) }
{}

/// If after a legal history neither a thread nor the flow's processor has a due entry, and none of
/// them is hung, no flow is in progress; and where nobody at all is hung, no thread is woken or in
/// a run.
pub fn still_is_idle()
    ensures no_flow { (def : LineDef) (h : List Entry) → IsValid def → HasValidRuns def
        → IsLegal def h → ((c : CpuNo) → next def h (actors.Cpu c) ≡ None)
        → ((c : CpuNo) → IsHungPast def (reverse h) (actors.Cpu c) → ⊥)
        → has_flow def (reverse h) ≡ false }
    ensures no_thread { (def : LineDef) (h : List Entry) → IsValid def → HasValidRuns def
        → IsLegal def h → NobodyEndsWaits def (reverse h)
        → ((a : Actor) → IsHungPast def (reverse h) a → ⊥) → (d : DevNo)
        → (is_woken (reverse h) d || is_running (reverse h) d) ≡ false }
{}

/// The lowest actor that is hung is a thread or a processor: who waits for itself through a driver
/// goes through the thread of the device that the driver frees, which is hung as well.
pub fn lowest_hung_is_no_driver()
    ensures law { (def : LineDef) (h : List Entry) (r : DriverNo) → IsValid def
        → HasValidRuns def → IsLegal def h
        → IsLowestHungPast def (reverse h) (Some (actors.Driver r)) → ⊥ }
{}
