//! What a step of a call does, whoever makes it (`kernel/irq/manage.c`).
ghost use Rattle.std.specs.Prelude.{◌≡◌, not, true, false};
ghost use Rattle.irq_base.specs.declared.entries.Actor.{Actor};
ghost use Rattle.irq_base.specs.declared.entries.CallEntry.TheVariants as called;
ghost use Rattle.irq_base.specs.declared.lines.LineDef.{LineDef};
ghost use Rattle.act_list.specs.Actions.{is_bare};
ghost use Rattle.act_list.specs.Lists.{unlink_by};
ghost use Rattle.ask_counts.specs.Rows.{unserved_at};
ghost use Rattle.desc_state.specs.Desc.{enable_by};
ghost use Rattle.line_marks.specs.Acts.{shut_if};
ghost use Rattle.line_marks.specs.Calls.{arm_edge_by, wake_by};
ghost use Rattle.line_marks.specs.Expected.{HasDepth};
ghost use Rattle.line_marks.specs.State.{IsOf, high_in, signalled};
ghost use Rattle.line_state.specs.Entries.{CanCall, IsActivated, call_after, call_made};

use crate::due::CallStep;
use crate::state::LineState;
use irq_base::{Actor, CallEntry, Chip, DevNo, LineDef, Trigger, UnlinkAnswer};

impl<C: Chip> LineState<C> {
    /// Makes the step of a call, and answers what it came to. Where the run stands that makes it
    /// isn't moved on.
    pub(crate) fn make_call(&mut self, def: &LineDef, actor: Actor, step: CallStep) -> CallEntry
        requires is_of { IsOf def.now self.old.state }
        requires can { CanCall step self.old.state }
        requires activated { IsActivated self.old.state }
        ensures entry { result ≡ call_made def.now self.old.state step }
        ensures state { self.new.state ≡ call_after def.now actor result self.old.state }
        ensures fixed { self.new.fixed ≡ self.old.fixed }
    {
        match step {
            CallStep::Disable => self.disable(),
            CallStep::HardClear => CallEntry::HardClear,
            CallStep::Synced => CallEntry::Synced,
            CallStep::Enable => self.enable(def),
            CallStep::Unlink { dev } => self.unlink(actor, dev),
            CallStep::Freed { dev } => self.freed(dev),
            CallStep::Wake { dev } => self.wake(dev),
            CallStep::Quiet { dev } => self.quiet(def, dev),
            CallStep::Arm { dev } => self.arm(def, dev),
            CallStep::Serve { dev } => self.serve(def, dev),
        }
    }

    /// `__disable_irq`.
    fn disable(&mut self) -> CallEntry
        requires { HasDepth self.old.state }
        ensures entry { result ≡ called.Disable }
        ensures state { (def : LineDef) (a : Actor)
            → self.new.state ≡ call_after def a result self.old.state }
        ensures fixed { self.new.fixed ≡ self.old.fixed }
    {
        self.desc.disable(&mut self.chip);
        CallEntry::Disable
    }

    /// `enable_irq`.
    fn enable(&mut self, def: &LineDef) -> CallEntry
        requires { IsActivated self.old.state }
        ensures entry { result ≡ called.Enable
            (enable_by (not (is_bare self.old.state.list.actions)) def.now.trigger
            self.old.state.desc self.old.state.cell) }
        ensures state { (a : Actor)
            → self.new.state ≡ call_after def.now a result self.old.state }
        ensures fixed { self.new.fixed ≡ self.old.fixed }
    {
        let linked = !self.actions.is_empty();
        let answer = self.desc.enable(&mut self.chip, linked, def.trigger);
        CallEntry::Enable { answer }
    }

    /// The first step of `__free_irq`: the device leaves, and the last one shuts the line down.
    #[tactic(auto, using(crate::proofs::Unlinking::left_alone))]
    fn unlink(&mut self, actor: Actor, dev: DevNo) -> CallEntry
        ensures entry { result
            ≡ called.Unlink (unlink_by dev self.old.state.list.actions) dev }
        ensures state { (def : LineDef)
            → self.new.state ≡ call_after def actor result self.old.state }
        ensures fixed { self.new.fixed ≡ self.old.fixed }
    {
        let answer = self.actions.unlink(dev);
        if let UnlinkAnswer::Unlinked { last } = answer {
            self.shut_if(last);
            self.freeing = Some((actor, dev));
        }
        CallEntry::Unlink { answer, dev }
    }

    fn shut_if(&mut self, last: bool)
        ensures state { self.new.state ≡ shut_if last self.old.state }
        ensures fixed { self.new.fixed ≡ self.old.fixed }
    {
        if last {
            self.desc.shutdown(&mut self.chip);
        }
    }

    /// The last step of `__free_irq`: if nothing is linked, the interrupt is deactivated in its
    /// domains.
    fn freed(&mut self, dev: DevNo) -> CallEntry
        ensures entry { result ≡ called.Freed dev }
        ensures state { (def : LineDef) (a : Actor)
            → self.new.state ≡ call_after def a result self.old.state }
        ensures fixed { self.new.fixed ≡ self.old.fixed }
    {
        self.freeing = None;
        if self.actions.is_empty() {
            self.chip.deactivate();
        }
        CallEntry::Freed { dev }
    }

    /// `irq_wake_thread`: a linked device's thread is woken, unless it is to run already.
    fn wake(&mut self, dev: DevNo) -> CallEntry
        ensures entry { result ≡ called.Wake (wake_by dev self.old.state) dev }
        ensures state { (def : LineDef) (a : Actor)
            → self.new.state ≡ call_after def a result self.old.state }
        ensures fixed { self.new.fixed ≡ self.old.fixed }
    {
        let may = self.actions.is_linked(dev) && self.kind(dev).has_thread();
        let oneshot = self.desc.oneshot();
        let woken = self.threads.wake_by_call(dev, may, oneshot);
        CallEntry::Wake { woken, dev }
    }

    /// The device's own interrupt is turned off.
    fn quiet(&mut self, def: &LineDef, dev: DevNo) -> CallEntry
        requires { IsOf def.now self.old.state }
        ensures entry { result ≡ called.Quiet dev }
        ensures state { (a : Actor)
            → self.new.state ≡ call_after def.now a result self.old.state }
        ensures fixed { self.new.fixed ≡ self.old.fixed }
    {
        self.asks.quiet(dev);
        self.signal(def, false);
        CallEntry::Quiet { dev }
    }

    /// The device's own interrupt is turned on: over what is unserved an edge comes, or the level
    /// is high.
    fn arm(&mut self, def: &LineDef, dev: DevNo) -> CallEntry
        requires { IsOf def.now self.old.state }
        ensures entry { result ≡ called.Arm (arm_edge_by def.now dev self.old.state) dev }
        ensures state { (a : Actor)
            → self.new.state ≡ call_after def.now a result self.old.state }
        ensures fixed { self.new.fixed ≡ self.old.fixed }
    {
        let edge = self.arms_with_edge(def, dev);
        self.asks.arm(dev);
        self.signal(def, edge);
        CallEntry::Arm { edge, dev }
    }

    /// Whether an arm of the device would make an edge.
    fn arms_with_edge(&self, def: &LineDef, dev: DevNo) -> bool
        ensures { result ≡ arm_edge_by def.now dev self.now.state }
    {
        if def.trigger == Trigger::Level {
            return false;
        }
        match self.asks.get(dev) {
            Some(row) => row.quiet && row.unserved > 0 && !self.facts.get(dev).forgets,
            None => false,
        }
    }

    /// A call serves the device: all that is unserved.
    fn serve(&mut self, def: &LineDef, dev: DevNo) -> CallEntry
        requires { IsOf def.now self.old.state }
        ensures entry { result ≡ called.Serve dev (unserved_at self.old.state.asks dev) }
        ensures state { (a : Actor)
            → self.new.state ≡ call_after def.now a result self.old.state }
        ensures fixed { self.new.fixed ≡ self.old.fixed }
    {
        let served = self.asks.serve(dev);
        self.signal(def, false);
        CallEntry::Serve { dev, served }
    }

    /// The signal after a change of the asks: `edge` says whether an edge comes; the level is high
    /// while some device that isn't quiet has an unserved ask.
    pub(crate) fn signal(&mut self, def: &LineDef, edge: bool)
        requires { IsOf def.now self.old.state }
        ensures state { self.new.state ≡ record self.old.state {
          cell = signalled def.now edge (high_in self.old.state.asks) self.old.state.cell;
        } }
        ensures fixed { self.new.fixed ≡ self.old.fixed }
    {
        match def.trigger {
            Trigger::Edge if edge => self.chip.edge(),
            Trigger::Edge => {}
            Trigger::Level => self.chip.set_high(self.asks.is_high()),
        }
    }
}
