//! Requests (`__setup_irq`, `kernel/irq/manage.c`).
ghost use Rattle.std.specs.Prelude.{◌≡◌, ◌≤◌, true, false, not, if◌then◌else◌};
ghost use Rattle.irq_base.specs.declared.entries.Opened.TheVariants as opens;
ghost use Rattle.irq_model.specs.Kinds.{is_linked_answer, opened_by_enable};
ghost use Rattle.act_list.specs.Actions.{has, answer_by};
ghost use Rattle.act_list.specs.Lists.{after_link};
ghost use Rattle.desc_state.specs.Desc.{resend_by, enable_by};
ghost use Rattle.line_marks.specs.Acts.{activated_if, opened_to};
ghost use Rattle.line_marks.specs.DriversDue.{request_to};
ghost use Rattle.line_marks.specs.Facts.{kind_at};
ghost use Rattle.line_marks.specs.State.{state_after};
ghost use Rattle.line_state.specs.Entries.{taken_over, IsActivated};

use crate::state::LineState;
use irq_base::{
    Chip, DevNo, DriverEntry, DriverNo, EnableAnswer, Entry, Flags, LineDef, LinkAnswer, Opened,
    Trigger,
};

impl<C: Chip> LineState<C> {
    /// A request: if its action is linked, the line is set up for it. A refused one changes
    /// nothing. What is linked already is active.
    pub(crate) fn request(
        &mut self,
        def: &LineDef,
        driver: DriverNo,
        dev: DevNo,
        flags: Flags,
    ) -> Entry
        requires absent { has dev self.old.state.list.actions ≡ false }
        requires room { is_linked_answer (answer_by (kind_at self.old.state.facts dev) flags
            self.old.state.list.actions) ≡ true
            → 1 ≤ self.old.spare }
        requires activated { IsActivated self.old.state }
        ensures entry { result ≡ request_to def.now driver dev flags self.old.state
            (answer_by (kind_at self.old.state.facts dev) flags self.old.state.list.actions) }
        ensures state { self.new.state ≡ state_after def.now result self.old.state }
        ensures fixed { self.new.fixed ≡ self.old.fixed }
    {
        let first = self.actions.is_empty();
        let answer = self.link(dev, flags);
        let opened = if answer == LinkAnswer::Linked {
            self.set_up(def.trigger, first, flags)
        } else {
            Opened::No
        };
        Entry::Driver(
            driver,
            DriverEntry::Request {
                flags,
                answer,
                opened,
                dev,
            },
        )
    }

    /// The action is linked, or refused.
    fn link(&mut self, dev: DevNo, flags: Flags) -> LinkAnswer
        requires absent { has dev self.old.state.list.actions ≡ false }
        requires room { is_linked_answer (answer_by (kind_at self.old.state.facts dev) flags
            self.old.state.list.actions) ≡ true
            → 1 ≤ self.old.spare }
        ensures answer { result
            ≡ answer_by (kind_at self.old.state.facts dev) flags self.old.state.list.actions }
        ensures state { self.new.state
            ≡ record self.old.state { list = after_link result dev flags self.old.state.list } }
        ensures fixed { self.new.fixed ≡ self.old.fixed }
    {
        let kind = self.kind(dev);
        let Ok(answer) = self.actions.link(dev, kind, flags) else {
            // There is room for an action that is linked.
            unreachable!();
        };
        answer
    }

    /// What the line takes over of a linked action: one-shot by its flags, the mark of a storm is
    /// cleared, and the window of the rule on spurious interrupts begins anew. The first action
    /// starts the line; a further one gives a line that a storm disabled another chance.
    fn set_up(&mut self, trigger: Trigger, first: bool, flags: Flags) -> Opened
        requires activated { first ≡ false → self.old.state.active ≡ true }
        ensures opened { result ≡ (if first then
            (if flags.noauto then opens.No else opens.Started
            (resend_by trigger self.old.state.desc self.old.state.cell))
            else (if self.old.state.desc.spurious
            then opened_by_enable (enable_by (not first) trigger self.old.state.desc
            self.old.state.cell)
            else opens.No)) }
        ensures state { self.new.state ≡ opened_to first result
            (activated_if first (taken_over flags self.old.state)) }
        ensures fixed { self.new.fixed ≡ self.old.fixed }
    {
        let spurious = self.desc.spurious();
        self.desc.set_oneshot(flags.oneshot);
        self.desc.set_spurious(false);
        self.counts.reset();
        if first {
            self.open_first(trigger, flags.noauto)
        } else {
            self.open_again(trigger, spurious)
        }
    }

    /// The first action activates the interrupt in its domains, and starts the line unless its
    /// driver will enable it (`IRQF_NO_AUTOEN`); then the line is left disabled once.
    fn open_first(&mut self, trigger: Trigger, noauto: bool) -> Opened
        ensures opened { result ≡ (if noauto then opens.No
            else opens.Started (resend_by trigger self.old.state.desc self.old.state.cell)) }
        ensures state { self.new.state ≡ opened_to true result
            (record self.old.state { active = true }) }
        ensures fixed { self.new.fixed ≡ self.old.fixed }
    {
        self.chip.activate();
        if noauto {
            self.desc.set_disabled();
            return Opened::No;
        }
        let resend = self.desc.startup(&mut self.chip, trigger);
        Opened::Started { resend }
    }

    /// A line that a storm disabled is enabled (the end of `__setup_irq`).
    fn open_again(&mut self, trigger: Trigger, spurious: bool) -> Opened
        requires activated { self.old.state.active ≡ true }
        ensures opened { result ≡ (if spurious then opened_by_enable
            (enable_by true trigger self.old.state.desc self.old.state.cell)
            else opens.No) }
        ensures state { self.new.state ≡ opened_to false result self.old.state }
        ensures fixed { self.new.fixed ≡ self.old.fixed }
    {
        if !spurious {
            return Opened::No;
        }
        match self.desc.enable(&mut self.chip, true, trigger) {
            EnableAnswer::Unbalanced => Opened::Unbalanced,
            EnableAnswer::Lowered => Opened::Lowered,
            EnableAnswer::Started { resend } => Opened::Started { resend },
        }
    }
}
