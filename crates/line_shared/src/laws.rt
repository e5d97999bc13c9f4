//! What the holder of a pass may conclude. Each law is the clause of a function that does nothing.
ghost use Rattle.std.specs.Prelude.{◌≡◌, ℕ, false, true, Some, List, ◌∷◌, ◌++◌, All, Contains};
ghost use Rattle.std.specs.Prelude.{length, reverse};
ghost use Rattle.std.specs.List.{list_any};
ghost use Rattle.irq_base.specs.declared.entries.Actor.{Actor};
ghost use Rattle.irq_base.specs.declared.entries.Entry.{Entry};
ghost use Rattle.irq_base.specs.declared.lines.LineDef.{LineDef};
ghost use Rattle.irq_base.specs.declared.numbers.DevNo.{DevNo};
ghost use Rattle.irq_model.specs.Kinds.{is_freed, links_dev};
ghost use Rattle.irq_model.specs.Laws.{is_run_of};
ghost use Rattle.irq_model.specs.Legal.{IsLegal};
ghost use Rattle.irq_model.specs.Places.{stands};
ghost use Rattle.irq_model.specs.Valid.{IsValid};
ghost use Rattle.line_lock.specs.Knows.{is_among, forked, IsCount, Meets, IsKnown};
ghost use Rattle.line_lock.specs.Placed.{placed};
ghost use Rattle.line_lock.specs.declared.view.Known.{Known};
ghost use Rattle.line_lock.specs.declared.view.Placed.{Placed};
ghost use Rattle.line_shared.specs.Meeting.{HasMet, StandsIn};

/// A pass's own entries stand in what it has seen, each at its place, and its actor made them.
pub fn own_entries_stand()
    ensures law { (who : Actor) (history : List Entry)
        → All (StandsIn who history) (placed who history) }
{}

/// When a first pass meets a pass, it has met that pass's actor (`HasMet`): what it has seen of the
/// actor is what the other pass knew as its own.
#[tactic(auto, using(crate::proofs::MetLaws::after_meeting))]
pub fn met_is_known()
    ensures law { (k other new : Known) (who : Actor) → Meets k other new
        → IsKnown k → other.actor ≡ Some who → HasMet new who other }
{}

/// An actor that a first pass has met stays met when it meets another pass, and the two actors
/// differ.
#[tactic(auto, using(crate::proofs::MetLaws::others_met))]
pub fn met_stays_met()
    ensures stays { (k other new : Known) (who a : Actor) (first : Known)
        → Meets k other new → other.actor ≡ Some who → HasMet k a first
        → HasMet new a first }
    ensures differ { (k other new : Known) (who a : Actor) (first : Known)
        → Meets k other new → other.actor ≡ Some who → HasMet k a first → a ≡ who → ⊥ }
{}

/// An actor that a first pass has met stays met when it gives a pass to an actor that had none.
pub fn met_stays_met_at_a_fork()
    ensures law { (k other : Known) (who a : Actor) → is_among who k.given ≡ false
        → HasMet k a other → HasMet (forked k who) a other }
{}

/// Once a first pass has met the passes of two actors, their entries have no place in common.
pub fn places_are_apart()
    ensures law { (k first second : Known) (a b : Actor) (x y : Placed)
        → HasMet k a first → HasMet k b second → (a ≡ b → ⊥) → Contains first.mine x
        → Contains second.mine y → x.place ≡ y.place → ⊥ }
{}

/// A look that finds as many entries as the pass has seen tells that these are the line's history.
#[tactic(auto, using(crate::proofs::MetLaws::all_is_seen))]
pub fn counted_is_seen()
    ensures law { (k : Known) (found : ℕ) (c : IsCount k found) → found ≡ length k.seen
        → c.history ≡ k.seen }
{}

/// A pass that has seen a free of a device sees no later run of the device, unless a request linked
/// it between the two.
#[tactic(auto, using(crate::proofs::FreeLaws::free_seen))]
pub fn free_is_final()
    ensures law { (def : LineDef) (seen more rest : List Entry) (e : Entry) (d : DevNo)
        → IsValid def → IsLegal def (seen ++ (more ++ e ∷ rest))
        → stands (is_freed d) (links_dev d) (reverse seen) ≡ true → is_run_of d e ≡ true
        → list_any (links_dev d) more ≡ true }
{}

/// What a first pass has seen is legal after it met a pass, if what either had seen was. A line's
/// steps leave a legal history, so this holds of whatever passes have seen.
#[tactic(auto, using(crate::proofs::MetLaws::met_legal))]
pub fn met_stays_legal()
    ensures law { (def : LineDef) (k other new : Known) → Meets k other new
        → IsLegal def k.seen → IsLegal def other.seen → IsLegal def new.seen }
{}
