//! What the searches find, as laws of their definitions.
ghost use Rattle.std.specs.Prelude.{◌≡◌, ℕ, ◌<◌, ◌≤◌, Bool, true, false, Some, None, List};
ghost use Rattle.std.specs.Prelude.{slice_get};
ghost use Rattle.irq_base.specs.declared.numbers.DevNo.{DevNo};
ghost use Rattle.board_ready.specs.First.{first_of};
ghost use Rattle.board_ready.specs.Kept.{thread_of};
ghost use Rattle.board_ready.specs.Ready.{lowest_thread};
ghost use Rattle.board_ready.specs.declared.parts.LineReadiness.{LineReadiness};
ghost use Rattle.board_ready.specs.declared.parts.ReadyThread.{ReadyThread};

/// The number that `first_of` finds is below the bound and passes, and none before it does; if it
/// finds none, none does.
#[tactic(auto, using(crate::proofs::Lowest::first_some))]
pub fn first_is_first()
    ensures some { (p : ℕ → Bool) (n t : ℕ) → first_of p n ≡ Some t
        → (t < n) × (p t ≡ true) × ((i : ℕ) → i < t → p i ≡ false) }
    ensures none { (p : ℕ → Bool) (n i : ℕ) → first_of p n ≡ None → i < n → p i ≡ false }
{}

/// The thread that `lowest_thread` finds is its line's ready thread, and no line has one whose
/// device has a lower number; if it finds none, no line has a ready thread.
#[tactic(auto, using(crate::proofs::Lowest::thread_some, crate::proofs::Lowest::thread_least, crate::proofs::Lowest::thread_none))]
pub fn lowest_thread_is_lowest()
    ensures there { (lines : List LineReadiness) (t : ReadyThread) → lowest_thread lines ≡ Some t
        → thread_of (slice_get lines t.line) ≡ Some t.dev }
    ensures least { (lines : List LineReadiness) (t : ReadyThread) (k : ℕ) (d : DevNo)
        → lowest_thread lines ≡ Some t → thread_of (slice_get lines k) ≡ Some d → t.dev.0 ≤ d.0 }
    ensures none { (lines : List LineReadiness) (k : ℕ) → lowest_thread lines ≡ None
        → thread_of (slice_get lines k) ≡ None }
{}
