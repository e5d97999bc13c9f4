//! The laws of every legal history of an interrupt line, for every valid definition: sentences over
//! the definitions alone, with no line of code. Each is the clause of a function with an empty
//! body, so that crates above can call it or cite its lemma.
#![tactic(auto)]

ghost use Rattle.std.specs.Prelude.{◌≡◌, ◌⊎◌, ℕ, true, false, not, ◌||◌, List, reverse, IsSome};
ghost use Rattle.std.specs.Prelude.{is_some, Some};
ghost use Rattle.irq_base.specs.Who.{actor_of};
ghost use Rattle.irq_base.specs.declared.calls.Call.{Call};
ghost use Rattle.irq_base.specs.declared.lines.LineDef.{LineDef};
ghost use Rattle.irq_base.specs.declared.numbers.CpuNo.{CpuNo};
ghost use Rattle.irq_base.specs.declared.numbers.DevNo.{DevNo};
ghost use Rattle.irq_base.specs.declared.numbers.DriverNo.{DriverNo};
ghost use Rattle.irq_base.specs.declared.entries.Actor.{Actor};
ghost use Rattle.irq_base.specs.declared.entries.Actor.TheVariants as actors;
ghost use Rattle.irq_base.specs.declared.entries.Entry.{Entry};
ghost use Rattle.irq_model.specs.Due.{due_call};
ghost use Rattle.irq_model.specs.Kinds.{is_take};
ghost use Rattle.irq_model.specs.Laws.{NoOverlap, IsSilentAfterFree, KeepsOneshot};
ghost use Rattle.irq_model.specs.Laws.{TakesAreCounted, IsSynchronised, IsServedWhenIdle};
ghost use Rattle.irq_model.specs.Legal.{IsLegal, IsLegalPast};
ghost use Rattle.irq_model.specs.Owed.{IsCovered, IsDelivered};
ghost use Rattle.irq_model.specs.Reason.{HasReason, OneIsCalled, OneIsFreed};
ghost use Rattle.irq_model.specs.Scripts.{FollowsScripts};
ghost use Rattle.irq_model.specs.Rounds.{flow, has_flow};
ghost use Rattle.irq_model.specs.RunLaws.{FollowsRunScripts, EnablesWhatItDisables};
ghost use Rattle.irq_model.specs.RunLaws.{IsLeftEnabled};
ghost use Rattle.irq_model.specs.Settled.{IsSettled};
ghost use Rattle.irq_model.specs.Next.{next};
ghost use Rattle.irq_model.specs.Signal.{target};
ghost use Rattle.irq_model.specs.Threads.{is_woken, is_running};
ghost use Rattle.irq_model.specs.Valid.{IsValid};
ghost use Rattle.irq_model.specs.ValidRuns.{HasValidRuns};
ghost use Rattle.irq_model.specs.Waits.{IsAtRest, NoStandstillPast, wanted, nothing_wanted};
ghost use Rattle.irq_laws.specs.Blocks.{block_of, stands_in_way, FreeMoves};
ghost use Rattle.irq_laws.specs.Driven.{IsDrivenCell};
ghost use Rattle.irq_laws.specs.Kept.{Kept};
ghost use Rattle.irq_laws.specs.LogLimit.{with_log};
ghost use Rattle.irq_laws.specs.Quiet.{IsQuiet};

/// No overlap: a device's handler is called only when it isn't at work, and its thread's run begins
/// only when it isn't in one.
#[tactic(auto, using(crate::proofs::RunLaws::no_overlap))]
pub fn no_overlap()
    ensures law { (def : LineDef) (h : List Entry) → IsValid def → IsLegal def h → NoOverlap def h }
{}

/// Silence after free: no run of a device comes after its free before it is linked again.
#[tactic(auto, using(crate::proofs::RunLaws::silent_after_free))]
pub fn silent_after_free()
    ensures law { (def : LineDef) (h : List Entry) → IsValid def → IsLegal def h
        → IsSilentAfterFree def h }
{}

/// The one-shot promise: when an end or a finish opens a level line, no thread is unfinished.
#[tactic(auto, using(crate::proofs::RunLaws::keeps_oneshot))]
pub fn keeps_oneshot()
    ensures law { (def : LineDef) (h : List Entry) → IsValid def → IsLegal def h
        → KeepsOneshot def h }
{}

/// Synchronised calls: a hard clear comes only when no handler is at work, the end of a sync only
/// when no thread is.
#[tactic(auto, using(crate::proofs::RunLaws::synchronised))]
pub fn synchronised()
    ensures law { (def : LineDef) (h : List Entry) → IsValid def → IsLegal def h
        → IsSynchronised def h }
{}

/// A started line with linked devices is masked for a reason: it is disabled, or a flow is in
/// progress, or on a level line a thread isn't finished.
#[tactic(auto, using(crate::proofs::ReasonLaws::has_reason))]
pub fn has_reason()
    ensures law { (def : LineDef) (h : List Entry) → IsValid def → IsLegal def h → HasReason def h }
{}

/// Each owed edge is somewhere: presented, kept, pending, in a software resend, or its device is
/// still ahead in the round.
#[tactic(auto, using(crate::proofs::CoverLaws::is_covered_law))]
pub fn covers_owed()
    ensures law { (def : LineDef) (h : List Entry) → IsValid def → IsLegal def h → IsCovered def h }
{}

/// Takes are counted: an edge line takes no more interrupts by its signal than came, and no more
/// software resends than starts asked for.
#[tactic(auto, using(crate::proofs::TakeLaws::takes_are_counted))]
pub fn takes_are_counted()
    ensures law { (def : LineDef) (h : List Entry) → IsLegal def h → TakesAreCounted def h }
{}

/// Served when idle: on an enabled line without a flow the next entry of the target is a take that
/// is handled, if an edge is owed, or if the level is high and no thread is unfinished.
#[tactic(auto, using(crate::proofs::ServedLaws::served_when_idle))]
pub fn served_when_idle()
    ensures law { (def : LineDef) (h : List Entry) → IsValid def → IsLegal def h
        → IsServedWhenIdle def h }
{}

/// Some processor of the machine takes the line's interrupts.
#[tactic(auto, using(crate::proofs::ServedLaws::has_target))]
pub fn has_target()
    ensures law { (def : LineDef) (past : List Entry) → IsValid def → IsLegalPast def past
        → IsSome (target def past) }
{}

/// No standstill: where nobody ends a wait (no thread has a step, nor the flow's processor, nor who
/// holds the request mutex), an actor without a step that isn't done waits for himself, or for one
/// that does, at once or through others. The scripts of runs are as a board may have them.
#[tactic(auto, using(crate::proofs::Standstill::no_standstill))]
pub fn no_standstill()
    ensures law { (def : LineDef) (past : List Entry) → IsValid def → HasValidRuns def
        → IsLegalPast def past → NoStandstillPast def past }
{}

/// Delivered: at rest no edge is owed on a line that isn't left disabled, and on a level line every
/// linked device that works and isn't quiet has all its asks served.
#[tactic(auto, using(crate::proofs::RestLaws::at_rest_is_delivered))]
pub fn at_rest_is_delivered()
    ensures law { (def : LineDef) (h : List Entry) → IsValid def → IsLegal def h → IsAtRest def h
        → IsDelivered def h }
{}

/// A driver's entries are the entries of its calls, in the order of its script, each once.
#[tactic(auto, using(crate::proofs::ScriptLaws::follows_scripts))]
pub fn follows_scripts()
    ensures law { (def : LineDef) (h : List Entry) → IsLegal def h → FollowsScripts def h }
{}

/// The calls of handlers and threads stand within their runs, in the order of their scripts, each
/// once, and all of them in a run that has returned.
#[tactic(auto, using(crate::proofs::ScriptLaws::follows_run_scripts))]
pub fn follows_run_scripts()
    ensures law { (def : LineDef) (h : List Entry) → IsLegal def h → FollowsRunScripts def h }
{}

/// The facts that every entry keeps (`Kept`) hold of every legal past, whose newest entry comes
/// first.
pub fn kept()
    ensures law { (def : LineDef) (past : List Entry) → IsValid def → IsLegalPast def past
        → Kept def past }
{}

/// At most one handler is at work, and it was called in the current round of the flow in progress.
#[tactic(auto, using(crate::proofs::ReasonLaws::one_is_called))]
pub fn one_is_called()
    ensures law { (def : LineDef) (past : List Entry) → IsValid def → IsLegalPast def past
        → OneIsCalled def past }
{}

/// At most one device is being freed, and the request mutex is held exactly while one is.
#[tactic(auto, using(crate::proofs::ReasonLaws::one_is_freed))]
pub fn one_is_freed()
    ensures law { (def : LineDef) (past : List Entry) → IsValid def → IsLegalPast def past
        → OneIsFreed def past }
{}

/// The cell: let the entries drive the line's signal cell, each by the operations of its flow or
/// its call. Then the cell's five marks (masked, stored, sent, high, in service) are as they are
/// read off the entries, and the cell presents an interrupt exactly if the line signals one.
#[tactic(auto, using(crate::proofs::CellKept::is_driven_cell))]
pub fn driven_cell()
    ensures law { (def : LineDef) (h : List Entry) → IsValid def → IsLegal def h
        → IsDrivenCell def h }
{}

/// What is due of an actor is an entry of that actor.
pub fn due_is_own()
    ensures law { (def : LineDef) (h : List Entry) (a : Actor) (e : Entry) → next def h a ≡ Some e
        → actor_of e ≡ a }
{}

/// Only the target ever has a take due, so at most one processor has.
pub fn one_takes()
    ensures law { (def : LineDef) (h : List Entry) (c : CpuNo) (e : Entry) → is_take e ≡ true
        → next def h (actors.Cpu c) ≡ Some e → target def (reverse h) ≡ Some c }
    ensures one { (def : LineDef) (h : List Entry) (b c : CpuNo) (e f : Entry) → is_take e ≡ true
        → is_take f ≡ true → next def h (actors.Cpu b) ≡ Some e
        → next def h (actors.Cpu c) ≡ Some f → b ≡ c }
{}

/// The processor of the flow in progress has an entry due, unless its handler's next step waits for
/// somebody.
pub fn flow_moves()
    ensures law { (def : LineDef) (h : List Entry) (c : CpuNo) → HasValidRuns def
        → flow def (reverse h) ≡ Some c → wanted def (actors.Cpu c) (reverse h) ≡ nothing_wanted
        → IsSome (next def h (actors.Cpu c)) }
{}

/// A driver whose call isn't complete may add its next entry exactly if what it waits for isn't in
/// the way.
pub fn call_waits()
    ensures law { (def : LineDef) (h : List Entry) → IsValid def → IsLegal def h
        → (r : DriverNo) (c : Call) (n : ℕ) → due_call def r (reverse h) ≡ Some (c, n)
        → is_some (next def h (actors.Driver r))
        ≡ not (stands_in_way def (reverse h) (block_of c n)) }
{}

/// No standstill among drivers: where no flow is in progress and no thread is woken or in a run, a
/// driver whose calls aren't complete may add its next entry, or the maker of the free that is
/// under
/// way may.
pub fn drivers_move()
    ensures law { (def : LineDef) (h : List Entry) → IsValid def → IsLegal def h
        → has_flow def (reverse h) ≡ false
        → ((d : DevNo) → (is_woken (reverse h) d || is_running (reverse h) d) ≡ false)
        → (r : DriverNo) → IsSome (due_call def r (reverse h))
        → IsSome (next def h (actors.Driver r)) ⊎ FreeMoves def h }
{}

/// Quiet: on a line at rest no flow is in progress, each handler that was called has returned, no
/// thread is to run or in a run, and no free is under way; and it is settled.
pub fn at_rest_is_quiet()
    ensures law { (def : LineDef) (h : List Entry) → IsValid def → IsLegal def h → IsAtRest def h
        → IsQuiet def h }
    ensures settled { (def : LineDef) (h : List Entry) → IsAtRest def h → IsSettled def h }
{}

/// The log limit is no rule: with another limit the same is due of every actor after every history,
/// so the same histories are legal.
pub fn log_is_no_rule()
    ensures law { (def : LineDef) (n : ℕ) (h : List Entry) (a : Actor)
        → next (with_log def n) h a ≡ next def h a }
    ensures legal { (def : LineDef) (n : ℕ) (h : List Entry) → IsLegal def h
        → IsLegal (with_log def n) h }
{}

/// Not left disabled: where each run that disables the line has its thread enable it, and each
/// driver
/// enables as often as it disables, a line at rest with something linked is enabled, unless an end
/// killed it since its depth was last set anew.
#[tactic(auto, using(crate::proofs::LeftEnabled::left_enabled))]
pub fn left_enabled()
    ensures law { (def : LineDef) (h : List Entry) → IsValid def → EnablesWhatItDisables def
        → IsLegal def h → IsAtRest def h → IsLeftEnabled def h }
{}
