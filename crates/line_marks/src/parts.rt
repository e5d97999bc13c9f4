//! Each part of a line's state follows the line's history: the part after one more entry is what
//! the entry makes of the part before it.
ghost use Rattle.std.specs.Prelude.{◌≡◌, ℕ, true, false, List, ◌∷◌, Option, Some, is_some};
ghost use Rattle.irq_base.specs.declared.calls.Call.{Call};
ghost use Rattle.irq_base.specs.declared.entries.Actor.TheVariants as actors;
ghost use Rattle.irq_base.specs.declared.entries.Entry.{Entry};
ghost use Rattle.irq_base.specs.declared.lines.LineDef.{LineDef};
ghost use Rattle.irq_base.specs.declared.numbers.DevNo.{DevNo};
ghost use Rattle.irq_base.specs.declared.numbers.DriverNo.{DriverNo};
ghost use Rattle.irq_model.specs.Due.{due_call, holds_mutex};
ghost use Rattle.irq_model.specs.Kinds.{is_by_driver};
ghost use Rattle.irq_model.specs.Legal.{IsLegalPast};
ghost use Rattle.irq_model.specs.Links.{depth, is_none_linked, is_oneshot};
ghost use Rattle.irq_model.specs.Next.{next_past};
ghost use Rattle.irq_model.specs.Rounds.{at_work};
ghost use Rattle.irq_model.specs.Up.{is_up};
ghost use Rattle.irq_model.specs.Valid.{IsValid};
ghost use Rattle.irq_laws.specs.Kept.{freeing};
ghost use Rattle.act_list.specs.Actions.{is_bare};
ghost use Rattle.act_list.specs.Lists.{flags_of};
ghost use Rattle.act_thread.specs.Threads.{threads_after};
ghost use Rattle.ask_counts.specs.Facts.{all_facts, facts_at, facts_of};
ghost use Rattle.line_scripts.specs.Endings.{completes};
ghost use Rattle.line_marks.specs.Actions.{actions_of, linked_flags, list_of, list_after};
ghost use Rattle.line_marks.specs.Aim.{aim_of, aim_after, aimed_of, aimed_after};
ghost use Rattle.line_marks.specs.Asks.{asks_of, asks_after};
ghost use Rattle.line_marks.specs.Counts.{tally_of, tally_after};
ghost use Rattle.line_marks.specs.Desc.{desc_of, desc_after};
ghost use Rattle.line_marks.specs.Freeing.{freeing_after};
ghost use Rattle.line_marks.specs.Places.{places_of, places_after};
ghost use Rattle.line_marks.specs.Rounds.{round_of, round_after};
ghost use Rattle.line_marks.specs.Scripts.{IsAt, place_after, within_after};
ghost use Rattle.line_marks.specs.Threads.{threads_of};
ghost use Rattle.line_marks.specs.Up.{up_by, active_after};

/// The descriptor: the depth, started, masked, pending, one-shot, the mark of the rule on spurious
/// interrupts, the software resend and the flow in progress.
#[tactic(auto, using(crate::proofs::DescFollow::desc_follows))]
pub fn desc_follows()
    ensures law { (def : LineDef) (e : Entry) (past : List Entry) → IsValid def
        → IsLegalPast def (e ∷ past)
        → desc_of def (e ∷ past) ≡ desc_after def (is_none_linked past) e (desc_of def past) }
{}

/// The list of actions, whose handlers were called in the round, and the number of rounds.
#[tactic(auto, using(crate::proofs::ListFollows::list_more))]
pub fn list_follows()
    ensures law { (def : LineDef) (e : Entry) (past : List Entry) → IsValid def
        → list_of def (e ∷ past) ≡ list_after def e (list_of def past) }
{}

/// The list has the linked devices in the order of the walk, each with the flags of its request.
#[tactic(auto, using(crate::proofs::ActionsFollow::actions_are))]
pub fn actions_are()
    ensures law { (def : LineDef) (past : List Entry) → IsValid def → IsLegalPast def past
        → flags_of (actions_of past) ≡ linked_flags past }
{}

/// The list is bare exactly if nothing is linked.
#[tactic(auto, using(crate::proofs::ActionsFollow::bare_is))]
pub fn bare_is()
    ensures law { (def : LineDef) (past : List Entry) → IsValid def → IsLegalPast def past
        → is_bare (actions_of past) ≡ is_none_linked past }
{}

/// The threads: for each device whether its thread is woken, how far its run is, and whether its
/// bit stands.
#[tactic(auto, using(crate::proofs::ThreadsFollow::threads_follow))]
pub fn threads_follow()
    ensures law { (def : LineDef) (e : Entry) (past : List Entry) → IsValid def
        → IsLegalPast def (e ∷ past)
        → threads_of def (e ∷ past) ≡ threads_after (is_oneshot past) e (threads_of def past) }
{}

/// The asks: for each device how many are unserved, how many of them came since its serving run
/// began, how many its handler and its thread met, and whether it is quiet.
#[tactic(auto, using(crate::proofs::AsksFollow::asks_more))]
pub fn asks_follow()
    ensures law { (def : LineDef) (e : Entry) (past : List Entry) → IsValid def
        → asks_of def (e ∷ past) ≡ asks_after (all_facts def) e (asks_of def past) }
{}

/// A device's kind, the part that serves and its options are those that the table has for it.
#[tactic(auto, using(crate::proofs::FactsFixed::facts_are))]
pub fn facts_stand()
    ensures law { (def : LineDef) (d : DevNo) → facts_at (all_facts def) d ≡ facts_of def d }
{}

/// How far the runs are with their calls, and which answers told devices have.
#[tactic(auto, using(crate::proofs::PlacesFollow::places_more))]
pub fn runs_follow()
    ensures law { (def : LineDef) (e : Entry) (past : List Entry) → IsValid def
        → IsLegalPast def (e ∷ past)
        → places_of def (e ∷ past) ≡ places_after def (at_work past) e (places_of def past) }
{}

/// The affinity: the mask in force, and a mask that waits.
#[tactic(auto, using(crate::proofs::AimFollow::aim_more))]
pub fn aim_follows()
    ensures law { (def : LineDef) (e : Entry) (past : List Entry)
        → aim_of def (e ∷ past) ≡ aim_after e (aim_of def past) }
{}

/// The processor that the chip is aimed at, which is the target.
#[tactic(auto, using(crate::proofs::TargetFollow::aimed_more))]
pub fn aimed_follows()
    ensures law { (def : LineDef) (e : Entry) (past : List Entry)
        → aimed_of def (e ∷ past) ≡ aimed_after e (aim_of def past) (aimed_of def past) }
{}

/// Whether the line's domains are active: a first request activates them, and the free of the last
/// action gives them up.
#[tactic(auto, using(crate::proofs::UpFollow::active_follows))]
pub fn active_follows()
    ensures law { (def : LineDef) (e : Entry) (past : List Entry) → IsValid def
        → IsLegalPast def (e ∷ past)
        → is_up (e ∷ past) ≡ active_after (is_bare (actions_of past)) e (is_up past) }
{}

/// The domains are active exactly while something is linked or a device is being freed.
#[tactic(auto, using(crate::proofs::UpFollow::up_is))]
pub fn up_is()
    ensures law { (def : LineDef) (past : List Entry) → IsValid def → IsLegalPast def past
        → is_up past ≡ up_by (is_none_linked past) (freeing past) }
{}

/// A line that isn't disabled is active: something is linked, and what is linked was activated.
#[tactic(auto, using(crate::proofs::UpFollow::enabled_is_up, crate::proofs::UpFollow::linked_is_up))]
pub fn enabled_is_active()
    ensures law { (def : LineDef) (past : List Entry) → IsValid def → IsLegalPast def past
        → depth past ≡ 0 → is_up past ≡ true }
    ensures linked { (def : LineDef) (past : List Entry) → IsValid def → IsLegalPast def past
        → is_none_linked past ≡ false → is_up past ≡ true }
{}

/// The round: the handler at work, whether some handler woke a thread or handled, and the greatest
/// moment.
#[tactic(auto, using(crate::proofs::RoundsFollow::round_more))]
pub fn rounds_follow()
    ensures law { (def : LineDef) (e : Entry) (past : List Entry)
        → round_of def (e ∷ past) ≡ round_after def e (round_of def past) }
{}

/// The counts of the rule on spurious interrupts.
#[tactic(auto, using(crate::proofs::CountsFollow::tally_more))]
pub fn tally_follows()
    ensures law { (def : LineDef) (e : Entry) (past : List Entry)
        → tally_of def (e ∷ past) ≡ tally_after e (round_of def past) (tally_of def past) }
{}

/// The free under way: its maker and its device.
#[tactic(auto, using(crate::proofs::FreeingFollows::freeing_more))]
pub fn freeing_follows()
    ensures law { (e : Entry) (past : List Entry)
        → freeing (e ∷ past) ≡ freeing_after e (freeing past) }
{}

/// The request mutex is held exactly while a free is under way.
#[tactic(auto, using(crate::proofs::FreeingFollows::mutex_is))]
pub fn freeing_holds_mutex()
    ensures law { (def : LineDef) (past : List Entry) → IsValid def → IsLegalPast def past
        → holds_mutex past ≡ is_some (freeing past) }
{}

/// The place of the driver that made the entry: an entry that completes the driver's call moves it
/// on to the next call.
#[tactic(auto, using(crate::proofs::ScriptsFollow::own_place))]
pub fn places_follow()
    ensures law { (def : LineDef) (past : List Entry) (e : Entry) (r : DriverNo) (place within : ℕ)
        (c : Call) (n : ℕ) → next_past def past (actors.Driver r) ≡ Some e → is_by_driver r e ≡ true
        → due_call def r past ≡ Some (c, n) → IsAt def past r place within
        → IsAt def (e ∷ past) r (place_after (completes c e) place)
        (within_after (completes c e) within) }
{}

/// The place of any other driver stays.
#[tactic(auto, using(crate::proofs::ScriptsFollow::other_place))]
pub fn places_stay()
    ensures law { (def : LineDef) (past : List Entry) (e : Entry) (r : DriverNo) (place within : ℕ)
        → is_by_driver r e ≡ false → IsAt def past r place within
        → IsAt def (e ∷ past) r place within }
{}
