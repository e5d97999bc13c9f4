//! The step that is due of a thread.
ghost use Rattle.std.specs.Prelude.{◌≡◌, Some, IfSome, option_map, true};
ghost use Rattle.irq_base.specs.declared.lines.LineDef.{LineDef};
ghost use Rattle.irq_model.specs.Lines.{has_device};
ghost use Rattle.act_thread.specs.declared.rows.Stage.TheVariants as stages;
ghost use Rattle.act_thread.specs.declared.rows.ThreadRow.{ThreadRow};
ghost use Rattle.device_table.specs.Rows.{at};
ghost use Rattle.irq_base.specs.declared.devices.Part.TheVariants as parts;
ghost use Rattle.line_marks.specs.Due.{thread_due, call_or_return_by, after_return};
ghost use Rattle.line_marks.specs.Runs.{due_in_run_at};
ghost use Rattle.run_scripts.specs.Runs.{AreRunsOf};
ghost use Rattle.line_state.specs.Entries.{thread_entry};
ghost use Rattle.line_state.specs.Running.{IsAboutThread, MayCall};
ghost use Rattle.line_state.specs.Seen.{IsScripted, runs_seen};

use crate::due::ThreadStep;
use crate::state::LineState;
use act_thread::Stage;
use irq_base::{Chip, DevNo, Part};

impl<C: Chip> LineState<C> {
    /// The step that is due of the device's thread, if there is one (`irq_thread`,
    /// `kernel/irq/manage.c`).
    #[inline(always)]
    pub fn due_of_thread(&self, dev: DevNo) -> Option<ThreadStep>
        ensures due { (def : LineDef) → IsScripted def self.now
            → option_map (thread_entry def self.now.state dev) result
            ≡ thread_due def self.now.state dev }
        ensures about { IfSome result (IsAboutThread self.now dev) }
    {
        let row = self.threads.get(dev)?;
        match row.stage {
            Stage::Idle if row.woken => Some(ThreadStep::Begin),
            Stage::Idle => None,
            Stage::Begun => self.due_of_run(dev),
            Stage::Returned => self.due_after_return(dev),
            Stage::Finished => Some(ThreadStep::Done),
        }
    }

    /// The run that is there makes its next call, or returns.
    #[inline(always)]
    fn due_of_run(&self, dev: DevNo) -> Option<ThreadStep>
        ensures due { (def : LineDef) → AreRunsOf def (runs_seen self.now)
            → has_device def dev ≡ true
            → option_map (thread_entry def self.now.state dev) result
            ≡ call_or_return_by def self.now.state dev
            (due_in_run_at def self.now.state parts.Thread dev) }
        ensures about { IfSome result (MayCall self.now dev) }
    {
        let Some((call, within)) = self.due_in_run(dev, Part::Thread) else {
            return Some(ThreadStep::Return);
        };
        let step = self.due_of_step(call, within)?;
        Some(ThreadStep::Call { step })
    }

    /// On a one-shot line the thread gives its bit up, once no flow is in progress; then its run is
    /// over.
    #[inline(always)]
    #[tactic(auto, using(crate::proofs::Finishing::finish_is))]
    fn due_after_return(&self, dev: DevNo) -> Option<ThreadStep>
        ensures due { (def : LineDef) (row : ThreadRow) → at self.now.state.threads dev ≡ Some row
            → row.stage ≡ stages.Returned
            → option_map (thread_entry def self.now.state dev) result
            ≡ after_return self.now.state dev row }
        ensures about { IfSome result (MayCall self.now dev) }
    {
        if !self.desc.oneshot() {
            return Some(ThreadStep::Done);
        }
        if self.desc.flow().is_some() {
            return None;
        }
        Some(ThreadStep::Finish)
    }
}
