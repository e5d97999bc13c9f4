//! What a device's thread does, from its wake to the end of its run.
ghost use Rattle.std.specs.Prelude.{◌≡◌, ◌<◌, ◌≤◌, IfErr, IfOk, List, Ok, OnErr, Some, length};
ghost use Rattle.std.specs.Prelude.{option_map};
ghost use Rattle.irq_base.specs.declared.entries.Actor.TheVariants as actors;
ghost use Rattle.irq_base.specs.declared.numbers.DriverNo.{DriverNo};
ghost use Rattle.irq_model.specs.Next.{next};
ghost use Rattle.callbacks.specs.Heard.{Heard, one_run};
ghost use Rattle.line_scripts.specs.Rows.{RowSeen};
ghost use Rattle.line_marks.specs.Line.{IsLine};
ghost use Rattle.line_marks.specs.State.{state_after, IsOf};
ghost use Rattle.line_state.specs.Entries.{CanMakeOfThread, IsActivated, thread_entry};
ghost use Rattle.line_state.specs.Running.{IsAboutThread};
ghost use Rattle.line_state.specs.Seen.{IsScripted, runs_seen};
ghost use Rattle.line_state.specs.declared.due.DueStep.TheVariants as steps;
ghost use Rattle.line_core.specs.Entries.{entry_at};
ghost use Rattle.line_core.specs.Room.{HasRoom};
ghost use Rattle.line_core.specs.Running.{run_by};
ghost use Rattle.line_core.specs.Steps.{Acts, IsStep, LacksAnswer};

use crate::line::Line;
use callbacks::Hears;
use irq_base::{Chip, DevNo, Entry, History, LineDef, Part};
use irq_line::{StepRefused, Stepped};
use line_state::{LineState, ThreadStep};

impl<C: Chip> Line<C> {
    /// A step of a device's thread.
    #[inline(always)]
    pub(crate) fn step_of_thread<E: Hears>(
        &mut self,
        dev: DevNo,
        ears: &mut E,
    ) -> Result<Stepped<E::Lack>, StepRefused>
        ensures step { IsStep E.hears E.lacks self.old.line (actors.Thread dev) ears.old result
            self.new.line ears.new }
        ensures wiring { self.new.wiring ≡ self.old.wiring }
    {
        let Some(step) = self.due_of_thread(dev) else {
            return Ok(Stepped::NotYet);
        };
        if let Err(refusal) = self.make_room() {
            return Err(refusal);
        }
        Ok(self.act_of_thread(dev, step, ears))
    }

    /// What is due of the thread, if anything is.
    #[inline(always)]
    fn due_of_thread(&self, dev: DevNo) -> Option<ThreadStep>
        ensures { option_map (λ step. entry_at self.now.line (steps.Thread dev step)) result
            ≡ next self.now.line.def self.now.line.entries (actors.Thread dev) }
    {
        self.state.due_of_thread(dev)
    }

    /// Does what is due of the thread, where there is room for its entry. It stands apart, as what a
    /// driver does, so that a step of a processor is short where it is made. What chooses between
    /// them doesn't, or the answers of all three would go through one place in memory.
    #[inline(never)]
    fn act_of_thread<E: Hears>(
        &mut self,
        dev: DevNo,
        step: ThreadStep,
        ears: &mut E,
    ) -> Stepped<E::Lack>
        requires due { next self.old.line.def self.old.line.entries (actors.Thread dev)
            ≡ Some (entry_at self.old.line (steps.Thread dev step)) }
        requires room { HasRoom self.old.line }
        ensures step { IsStep E.hears E.lacks self.old.line (actors.Thread dev) ears.old (Ok result)
            self.new.line ears.new }
        ensures wiring { self.new.wiring ≡ self.old.wiring }
    {
        put(
            &self.def,
            &mut self.history,
            &mut self.state,
            dev,
            step,
            ears,
        )
    }
}

/// Puts the entry of what is due of the thread at the history's end, which has room for it. The
/// drivers' places stay.
#[inline(always)]
fn put<C: Chip, E: Hears>(
    def: &LineDef,
    history: &mut History,
    state: &mut LineState<C>,
    dev: DevNo,
    step: ThreadStep,
    ears: &mut E,
) -> Stepped<E::Lack>
    requires line { (scripts : List (DriverNo × RowSeen))
        × IsLine def.now history.old.entries state.old.state scripts (runs_seen state.old) }
    requires due { next def.now history.old.entries (actors.Thread dev)
        ≡ Some (thread_entry def.now state.old.state dev step) }
    requires below { length history.old.entries < def.now.log }
    requires room { 1 ≤ history.old.spare }
    ensures acts { Acts E.hears E.lacks
        (run_by def.now state.old.state (steps.Thread dev step))
        (thread_entry def.now state.old.state dev step) history.old ears.old result
        history.new ears.new }
    ensures line { (scripts : List (DriverNo × RowSeen))
        → IsLine def.now history.old.entries state.old.state scripts (runs_seen state.old)
        → IsLine def.now history.new.entries state.new.state scripts (runs_seen state.new) }
    ensures wiring { state.new.fixed.wiring ≡ state.old.fixed.wiring }
{
    match act(def, state, dev, step, ears) {
        Ok(entry) => {
            history.push(entry);
            Stepped::Added(entry)
        }
        Err(lack) => Stepped::Lacks(lack),
    }
}

/// Does what is due of the thread, and has the entry that says it.
///
/// # Errors
///
/// It is a return, and the answer of the run that ends isn't at hand. Nothing has changed then.
#[inline(always)]
fn act<C: Chip, E: Hears>(
    def: &LineDef,
    state: &mut LineState<C>,
    dev: DevNo,
    step: ThreadStep,
    ears: &mut E,
) -> Result<Entry, E::Lack>
    requires is_of { IsOf def.now state.old.state }
    requires scripted { IsScripted def.now state.old }
    requires activated { IsActivated state.old.state }
    requires can { CanMakeOfThread step state.old.state }
    requires about { IsAboutThread state.old dev step }
    ensures entry { IfOk result (λ e. e ≡ thread_entry def.now state.old.state dev step) }
    ensures state { IfOk result
        (λ e. state.new.state ≡ state_after def.now e state.old.state) }
    ensures heard { IfOk result (λ _. Heard E.hears
        (one_run (run_by def.now state.old.state (steps.Thread dev step))) ears.old ears.new) }
    ensures lacking { IfErr result (LacksAnswer E.lacks
        (run_by def.now state.old.state (steps.Thread dev step)) ears.old) }
    ensures unheard { OnErr result ((state.new ≡ state.old) × (ears.new ≡ ears.old)) }
    ensures fixed { state.new.fixed ≡ state.old.fixed }
{
    match step {
        ThreadStep::Begin => Ok(state.thread_begin(dev)),
        ThreadStep::Call { step } => Ok(state.call_of_thread(def, dev, step)),
        ThreadStep::Return => {
            let there = state.run_there(def, Part::Thread, dev);
            match ears.hear(there.run) {
                Ok(answer) => Ok(state.thread_returned(def, there, answer)),
                Err(lack) => Err(lack),
            }
        }
        ThreadStep::Finish => Ok(state.finish(dev)),
        ThreadStep::Done => Ok(state.done(dev)),
    }
}
