//! A pass, with what its worker knows of it.
ghost use Rattle.std.specs.Prelude.{◌≡◌, true, false, Some, IsSome, IsTrue};
ghost use Rattle.irq_base.specs.declared.entries.Actor.{Actor};
ghost use Rattle.line_lock.specs.Passes.{IsPassOf};
ghost use Rattle.workers.specs.Tries.{Glances, IsIdle, Tries, rests_after};
ghost use Rattle.workers.specs.Terms.{terms_of};

use callbacks::{Before, Said, SharedHandler};
use irq_base::Entry;
use irq_line::{IrqLine, StepRefused, Stepped};
use line_shared::{Pass, SharedLine};
use std::marker::Model;
use std::sync::Wait;

/// A pass, and whether its actor is known to have nothing due on what the pass has seen. If so, and
/// nothing has happened on the line since, the line needn't be held again.
#[derive(Drop)]
pub(crate) struct Post<L: IrqLine> {
    pub(crate) pass: Pass<L>,
    pub(crate) rests: bool,
    /// Whether the actor has made an entry with it.
    pub(crate) near: bool,
}

/// Which lines a processor looks at again, of those that had nothing due of it.
#[derive(Clone, Copy, PartialEq, Eq)]
pub(crate) enum Reach {
    /// Those on which it has made an entry.
    Near,
    /// All.
    All,
}

impl<L: IrqLine> Model for Post<L> {
    ghost use Rattle.workers.specs.Seen.{PostSeen};

    ghost Value = { PostSeen };

    ghost view = { λ s. record { pass = s.pass; rests = s.rests } };
}

impl<L: IrqLine> Post<L> {
    /// Tries the actor's next step on the line, unless nothing was due last time and a look finds
    /// that nothing has happened on the line since.
    pub(crate) fn step<R: Wait, H: SharedHandler>(
        &mut self,
        rt: &R,
        line: &SharedLine<L>,
        handlers: &H,
    ) -> Result<Option<Entry>, StepRefused>
        requires line { IsPassOf line.now self.old.pass }
        requires idle { self.old.pass.turn ≡ false }
        requires actor { IsSome self.old.pass.knows.actor }
        requires known { self.old.rests ≡ true → (who : Actor)
            → self.old.pass.knows.actor ≡ Some who → IsIdle line.now.def who self.old.pass.knows }
        ensures line { IsPassOf line.now self.new.pass }
        ensures idle { self.new.pass.turn ≡ false }
        ensures actor { self.new.pass.knows.actor ≡ self.old.pass.knows.actor }
        ensures rests { self.new.rests ≡ rests_after result }
        ensures tries { (who : Actor) → self.old.pass.knows.actor ≡ Some who
            → Tries (terms_of L.seen L.may_want (H.gave handlers.now))
            line.now.def who self.old.pass.knows result self.new.pass.knows }
    {
        if self.is_still(line) {
            return Ok(None);
        }
        let tried = step_heard(rt, line, &mut self.pass, handlers);
        self.rests = tried == Ok(None);
        self.near = self.near || !self.rests;
        tried
    }

    /// Whether a worker that reaches so far passes over the line: nothing was due of the actor last
    /// time, and the line is beyond its reach.
    pub(crate) fn is_beyond(&self, reach: Reach) -> bool
        ensures { IsTrue result → self.now.rests ≡ true }
    {
        self.rests && !self.near && reach == Reach::Near
    }

    /// Whether nothing was due of the actor last time, and nothing has happened on the line since.
    fn is_still(&mut self, line: &SharedLine<L>) -> bool
        requires line { IsPassOf line.now self.old.pass }
        requires idle { self.old.pass.turn ≡ false }
        requires actor { IsSome self.old.pass.knows.actor }
        ensures line { IsPassOf line.now self.new.pass }
        ensures idle { self.new.pass.turn ≡ false }
        ensures rests { self.new.rests ≡ self.old.rests }
        ensures still { IsTrue result → self.old.rests ≡ true }
        ensures looks { Glances self.old.pass.knows result self.new.pass.knows }
    {
        self.rests && self.has_seen_all(line)
    }

    /// Whether the line has as many entries now as the pass has seen.
    fn has_seen_all(&mut self, line: &SharedLine<L>) -> bool
        requires line { IsPassOf line.now self.old.pass }
        requires idle { self.old.pass.turn ≡ false }
        requires actor { IsSome self.old.pass.knows.actor }
        ensures line { IsPassOf line.now self.new.pass }
        ensures idle { self.new.pass.turn ≡ false }
        ensures rests { self.new.rests ≡ self.old.rests }
        ensures looks { Glances self.old.pass.knows result self.new.pass.knows }
    {
        let count = line.look(&mut self.pass);
        count == self.pass.front()
    }
}

/// Adds the entry that is due of the pass's actor, if there is one. If it ends a run of a handler,
/// that handler is called first, with the line let go.
fn step_heard<L: IrqLine, R: Wait, H: SharedHandler>(
    rt: &R,
    line: &SharedLine<L>,
    pass: &mut Pass<L>,
    handlers: &H,
) -> Result<Option<Entry>, StepRefused>
    requires line { IsPassOf line.now pass.old }
    requires idle { pass.old.turn ≡ false }
    requires actor { IsSome pass.old.knows.actor }
    ensures line { IsPassOf line.now pass.new }
    ensures idle { pass.new.turn ≡ false }
    ensures actor { pass.new.knows.actor ≡ pass.old.knows.actor }
    ensures tries { (who : Actor) → pass.old.knows.actor ≡ Some who
        → Tries (terms_of L.seen L.may_want (H.gave handlers.now))
        line.now.def who pass.old.knows result pass.new.knows }
{
    let mut before = Before { said: None };
    for _ in rt.forever() {
        match line.step(rt, pass, &mut before) {
            Ok(Stepped::Added(entry)) => return Ok(Some(entry)),
            Ok(Stepped::NotYet) => return Ok(None),
            Ok(Stepped::Lacks(run)) => before.said = Some(Said::of(handlers, run)),
            Err(refused) => return Err(refused),
        }
    }
    unreachable!()
}
