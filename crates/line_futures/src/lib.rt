//! What a line's future depends on. `canon` takes out of a line's state what decides nothing any
//! more, so that states which differ in that alone are one. There is no code: each law is the
//! clause of a function with an empty body.
#![tactic(auto)]

ghost use Rattle.std.specs.Prelude.{◌≡◌, List, ◌∷◌, ◌++◌};
ghost use Rattle.irq_base.specs.declared.entries.Actor.{Actor};
ghost use Rattle.irq_base.specs.declared.entries.Entry.{Entry};
ghost use Rattle.irq_base.specs.declared.lines.LineDef.{LineDef};
ghost use Rattle.irq_base.specs.declared.numbers.DriverNo.{DriverNo};
ghost use Rattle.irq_model.specs.Legal.{IsDue, IsLegalPast};
ghost use Rattle.irq_model.specs.Next.{next_past};
ghost use Rattle.irq_model.specs.Valid.{IsValid};
ghost use Rattle.line_scripts.specs.Rows.{RowSeen};
ghost use Rattle.line_marks.specs.Next.{due_by};
ghost use Rattle.line_marks.specs.State.{StateSeen, state_of, state_after};
ghost use Rattle.line_futures.specs.Canon.{canon};
ghost use Rattle.line_futures.specs.Futures.{AreAlike};
ghost use Rattle.line_futures.specs.Made.{MayFollow};

/// What is due of each actor is due by the canonical state alike: of any state, whether a history
/// leads to it or not.
#[tactic(auto, using(crate::proofs::CanonDue::due_same))]
pub fn canon_is_due()
    ensures law { (def : LineDef) (s : StateSeen) (scripts : List (DriverNo × RowSeen))
        (a : Actor) → due_by def (canon s) scripts a ≡ due_by def s scripts a }
{}

/// What such an entry makes of the canonical state is, again canonical, what it makes of the state.
#[tactic(auto, using(crate::proofs::CanonSteps::canon_after))]
pub fn canon_follows()
    ensures law { (def : LineDef) (s : StateSeen) (e : Entry) → MayFollow e s
        → canon (state_after def e (canon s)) ≡ canon (state_after def e s) }
{}

/// Every entry that is due after a legal history is such an entry.
#[tactic(auto, using(crate::proofs::MadeIs::may_follow))]
pub fn due_may_follow()
    ensures law { (def : LineDef) (past : List Entry) → IsValid def → IsLegalPast def past
        → (e : Entry) → IsDue def e past → MayFollow e (state_of def past) }
{}

/// What is due after one of two alike pasts is due after the other, and then they are alike again.
#[tactic(auto, using(crate::proofs::Futures::due_same))]
pub fn alike_goes_on()
    ensures due { (def : LineDef) → IsValid def → (g h : List Entry) → IsLegalPast def g
        → IsLegalPast def h → AreAlike def g h
        → (a : Actor) → next_past def g a ≡ next_past def h a }
    ensures after { (def : LineDef) → IsValid def → (g h : List Entry) → IsLegalPast def g
        → IsLegalPast def h → AreAlike def g h
        → (e : Entry) → IsDue def e g → AreAlike def (e ∷ g) (e ∷ h) }
{}

/// So alike pasts have the same future: what may follow the one, may follow the other.
#[tactic(auto, using(crate::proofs::Futures::same_future))]
pub fn equal_futures()
    ensures law { (def : LineDef) → IsValid def → (k g h : List Entry) → IsLegalPast def h
        → AreAlike def g h → IsLegalPast def (k ++ g) → IsLegalPast def (k ++ h) }
{}
