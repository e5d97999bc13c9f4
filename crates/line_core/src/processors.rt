//! What a processor does in the flow of an interrupt, from the take to the end.
ghost use Rattle.std.specs.Prelude.{◌≡◌, ◌<◌, ◌≤◌, IfErr, IfOk, IfSome, List, Ok, OnErr, Some};
ghost use Rattle.std.specs.Prelude.{length, option_map, reverse};
ghost use Rattle.irq_base.specs.declared.entries.Actor.TheVariants as actors;
ghost use Rattle.irq_base.specs.declared.numbers.DriverNo.{DriverNo};
ghost use Rattle.irq_model.specs.Next.{next};
ghost use Rattle.irq_model.specs.Valid.{IsValid};
ghost use Rattle.callbacks.specs.Heard.{Heard, one_run};
ghost use Rattle.line_scripts.specs.Rows.{RowSeen};
ghost use Rattle.line_marks.specs.Line.{IsLine};
ghost use Rattle.line_marks.specs.State.{state_after, IsOf};
ghost use Rattle.line_state.specs.Entries.{CanMakeOfCpu, IsActivated, cpu_entry};
ghost use Rattle.line_state.specs.Running.{IsAboutCpu};
ghost use Rattle.line_state.specs.Seen.{IsScripted, runs_seen};
ghost use Rattle.line_state.specs.declared.due.DueStep.TheVariants as steps;
ghost use Rattle.line_core.specs.Entries.{entry_at};
ghost use Rattle.line_core.specs.Room.{HasRoom};
ghost use Rattle.line_core.specs.Running.{IsOfWork, run_by};
ghost use Rattle.line_core.specs.Steps.{Acts, IsStep, LacksAnswer};

use crate::line::Line;
use callbacks::Hears;
use irq_base::{Chip, CpuNo, Entry, History, LineDef, Part};
use irq_line::{StepRefused, Stepped};
use line_state::{CpuStep, LineState};

impl<C: Chip> Line<C> {
    /// A step of a processor.
    #[inline(always)]
    pub(crate) fn step_of_cpu<E: Hears>(
        &mut self,
        cpu: CpuNo,
        ears: &mut E,
    ) -> Result<Stepped<E::Lack>, StepRefused>
        ensures step { IsStep E.hears E.lacks self.old.line (actors.Cpu cpu) ears.old result
            self.new.line ears.new }
        ensures wiring { self.new.wiring ≡ self.old.wiring }
    {
        let Some(step) = self.due_of_cpu(cpu) else {
            return Ok(Stepped::NotYet);
        };
        if let Err(refusal) = self.make_room() {
            return Err(refusal);
        }
        Ok(self.act_of_cpu(cpu, step, ears))
    }

    /// What is due of the processor, if anything is.
    #[inline(always)]
    fn due_of_cpu(&self, cpu: CpuNo) -> Option<CpuStep>
        ensures due { option_map (λ step. entry_at self.now.line (steps.Cpu cpu step)) result
            ≡ next self.now.line.def self.now.line.entries (actors.Cpu cpu) }
        ensures work { IfSome result (IsOfWork (reverse self.now.line.entries)) }
    {
        self.state.due_of_cpu(cpu)
    }

    /// Does what is due of the processor, where there is room for its entry.
    #[inline(always)]
    fn act_of_cpu<E: Hears>(&mut self, cpu: CpuNo, step: CpuStep, ears: &mut E) -> Stepped<E::Lack>
        requires due { next self.old.line.def self.old.line.entries (actors.Cpu cpu)
            ≡ Some (entry_at self.old.line (steps.Cpu cpu step)) }
        requires work { IsOfWork (reverse self.old.line.entries) step }
        requires room { HasRoom self.old.line }
        ensures step { IsStep E.hears E.lacks self.old.line (actors.Cpu cpu) ears.old (Ok result)
            self.new.line ears.new }
        ensures wiring { self.new.wiring ≡ self.old.wiring }
    {
        put(
            &self.def,
            &mut self.history,
            &mut self.state,
            cpu,
            step,
            ears,
        )
    }
}

/// Puts the entry of what is due of the processor at the history's end, which has room for it. The
/// drivers' places stay.
#[inline(always)]
fn put<C: Chip, E: Hears>(
    def: &LineDef,
    history: &mut History,
    state: &mut LineState<C>,
    cpu: CpuNo,
    step: CpuStep,
    ears: &mut E,
) -> Stepped<E::Lack>
    requires line { (scripts : List (DriverNo × RowSeen))
        × IsLine def.now history.old.entries state.old.state scripts (runs_seen state.old) }
    requires due { next def.now history.old.entries (actors.Cpu cpu)
        ≡ Some (cpu_entry def.now state.old.state cpu step) }
    requires work { IsOfWork (reverse history.old.entries) step }
    requires below { length history.old.entries < def.now.log }
    requires room { 1 ≤ history.old.spare }
    ensures acts { Acts E.hears E.lacks
        (run_by def.now state.old.state (steps.Cpu cpu step))
        (cpu_entry def.now state.old.state cpu step) history.old ears.old result
        history.new ears.new }
    ensures line { (scripts : List (DriverNo × RowSeen))
        → IsLine def.now history.old.entries state.old.state scripts (runs_seen state.old)
        → IsLine def.now history.new.entries state.new.state scripts (runs_seen state.new) }
    ensures wiring { state.new.fixed.wiring ≡ state.old.fixed.wiring }
{
    match act(def, state, cpu, step, ears) {
        Ok(entry) => {
            history.push(entry);
            Stepped::Added(entry)
        }
        Err(lack) => Stepped::Lacks(lack),
    }
}

/// Does what is due of the processor, and has the entry that says it.
///
/// # Errors
///
/// It is a return, and the answer of the run that ends isn't at hand. Nothing has changed then.
#[inline(always)]
fn act<C: Chip, E: Hears>(
    def: &LineDef,
    state: &mut LineState<C>,
    cpu: CpuNo,
    step: CpuStep,
    ears: &mut E,
) -> Result<Entry, E::Lack>
    requires valid { IsValid def.now }
    requires is_of { IsOf def.now state.old.state }
    requires few { state.old.state.aim.cpus ≤ 32 }
    requires scripted { IsScripted def.now state.old }
    requires activated { IsActivated state.old.state }
    requires can { CanMakeOfCpu def.now step state.old.state }
    requires about { IsAboutCpu state.old step }
    ensures entry { IfOk result (λ e. e ≡ cpu_entry def.now state.old.state cpu step) }
    ensures state { IfOk result
        (λ e. state.new.state ≡ state_after def.now e state.old.state) }
    ensures heard { IfOk result (λ _. Heard E.hears
        (one_run (run_by def.now state.old.state (steps.Cpu cpu step))) ears.old ears.new) }
    ensures lacking { IfErr result (LacksAnswer E.lacks
        (run_by def.now state.old.state (steps.Cpu cpu step)) ears.old) }
    ensures unheard { OnErr result ((state.new ≡ state.old) × (ears.new ≡ ears.old)) }
    ensures fixed { state.new.fixed ≡ state.old.fixed }
{
    match step {
        CpuStep::Take { way } => Ok(state.take(def, cpu, way)),
        CpuStep::Begin { dev } => Ok(state.begin(cpu, dev)),
        CpuStep::Call { dev, step } => Ok(state.call_of_cpu(def, cpu, dev, step)),
        CpuStep::Return { dev } => {
            let there = state.run_there(def, Part::Primary, dev);
            match ears.hear(there.run) {
                Ok(answer) => Ok(state.returned(def, cpu, there, answer)),
                Err(lack) => Err(lack),
            }
        }
        CpuStep::End => Ok(state.end(def, cpu)),
    }
}
