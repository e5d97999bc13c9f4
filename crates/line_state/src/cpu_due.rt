//! The step that is due of a processor.
ghost use Rattle.std.specs.Prelude.{◌≡◌, Some, None, IfSome, option_map};
ghost use Rattle.irq_base.specs.declared.lines.LineDef.{LineDef};
ghost use Rattle.irq_model.specs.Rounds.{is_cpu};
ghost use Rattle.line_marks.specs.CpuDue.{is_held, in_flow_by, next_take_by, cpu_due};
ghost use Rattle.line_state.specs.Entries.{cpu_entry};
ghost use Rattle.line_state.specs.Running.{IsAboutCpu};
ghost use Rattle.line_state.specs.Seen.{IsScripted};

use crate::due::CpuStep;
use crate::state::LineState;
use irq_base::{Chip, CpuNo, DevNo, Part, Way};

impl<C: Chip> LineState<C> {
    /// The step that is due of the processor, if there is one: in its flow the next of the round,
    /// else a take.
    #[inline(always)]
    pub fn due_of_cpu(&self, cpu: CpuNo) -> Option<CpuStep>
        ensures due { (def : LineDef) → IsScripted def self.now
            → option_map (cpu_entry def self.now.state cpu) result
            ≡ cpu_due def self.now.state cpu }
        ensures about { IfSome result (IsAboutCpu self.now) }
    {
        if self.is_in_flow(cpu) {
            self.due_in_flow(cpu)
        } else {
            self.due_take(cpu)
        }
    }

    /// Whether the flow in progress is the processor's.
    pub(crate) fn is_in_flow(&self, cpu: CpuNo) -> bool
        ensures { result ≡ is_cpu cpu self.now.state.desc.flow }
    {
        match self.desc.flow() {
            Some(busy) => busy == cpu,
            None => false,
        }
    }

    /// The handler that is at work makes its next call, or returns; else the first that is left is
    /// called; else the round ends (`__handle_irq_event_percpu`, `kernel/irq/handle.c`).
    #[inline(always)]
    fn due_in_flow(&self, cpu: CpuNo) -> Option<CpuStep>
        ensures due { (def : LineDef) → IsScripted def self.now
            → option_map (cpu_entry def self.now.state cpu) result
            ≡ in_flow_by def self.now.state cpu self.now.state.round.working }
        ensures about { IfSome result (IsAboutCpu self.now) }
    {
        match self.round.working() {
            Some(dev) => self.due_of_handler(cpu, dev),
            None => Some(self.due_begin_or_end(cpu)),
        }
    }

    /// The handler of this device, which is at work, makes its next call, or returns.
    #[inline(always)]
    fn due_of_handler(&self, cpu: CpuNo, dev: DevNo) -> Option<CpuStep>
        requires { self.now.state.round.working ≡ Some dev }
        ensures due { (def : LineDef) → IsScripted def self.now
            → option_map (cpu_entry def self.now.state cpu) result
            ≡ in_flow_by def self.now.state cpu (Some dev) }
        ensures about { IfSome result (IsAboutCpu self.now) }
    {
        let Some((call, within)) = self.due_in_run(dev, Part::Primary) else {
            return Some(CpuStep::Return { dev });
        };
        let step = self.due_of_step(call, within)?;
        Some(CpuStep::Call { dev, step })
    }

    /// The first linked device whose handler wasn't called in the round is called; if there is
    /// none, the round ends.
    #[inline(always)]
    #[tactic(auto, using(crate::proofs::Owners::left_is_linked))]
    fn due_begin_or_end(&self, cpu: CpuNo) -> CpuStep
        ensures due { (def : LineDef) → Some (cpu_entry def self.now.state cpu result)
            ≡ in_flow_by def self.now.state cpu None }
        ensures about { IsAboutCpu self.now result }
    {
        match self.actions.first_left() {
            Some(dev) => CpuStep::Begin { dev },
            None => CpuStep::End,
        }
    }

    /// The target takes what is presented, or else what the software resends.
    #[inline(always)]
    fn due_take(&self, cpu: CpuNo) -> Option<CpuStep>
        ensures due { (def : LineDef) → option_map (cpu_entry def self.now.state cpu) result
            ≡ next_take_by self.now.state cpu }
        ensures about { IfSome result (IsAboutCpu self.now) }
    {
        if self.aim.target() != cpu {
            return None;
        }
        if self.chip.signal() {
            return Some(CpuStep::Take { way: Way::Line });
        }
        if self.desc.soft() {
            return Some(CpuStep::Take { way: Way::Resend });
        }
        None
    }
}
