//! What the jobs that fit their lines know. Each law is the clause of a function that does nothing.
ghost use Rattle.std.specs.Prelude.{◌≡◌, ℕ, Some, List, map, slice_get};
ghost use Rattle.irq_base.specs.declared.entries.Actor.TheVariants as actors;
ghost use Rattle.irq_base.specs.declared.numbers.DriverNo.{DriverNo};
ghost use Rattle.irq_model.specs.Due.{calls_by};
ghost use Rattle.irq_model.specs.Scripts.{AreMadeBy};
ghost use Rattle.line_lock.specs.Passes.{LockSeen};
ghost use Rattle.line_lock.specs.declared.view.Placed.{Placed};
ghost use Rattle.workers.specs.Fit.{Fit};
ghost use Rattle.workers.specs.Seen.{PostSeen, JobSeen, JobsSeen};

/// A driver's own entries on a line, as its job's pass knows them, are the entries of its calls
/// there, in the order of its script, each once.
#[tactic(auto, using(crate::proofs::Scripted::own_made))]
pub fn own_are_made()
    ensures law { (lines : List LockSeen) (s : JobsSeen) (i place : ℕ) (j : JobSeen)
        (t : PostSeen) (r : DriverNo) → Fit lines s → slice_get s.jobs i ≡ Some j
        → slice_get j.posts place ≡ Some t → j.actor ≡ actors.Driver r
        → AreMadeBy (calls_by r t.pass.def.calls)
        (map (λ (x : Placed). x.entry) t.pass.knows.mine) }
{}
