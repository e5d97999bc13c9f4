//! What a run waits for.
ghost use Rattle.std.specs.Prelude.{◌≡◌, true};
ghost use Rattle.irq_base.specs.declared.lines.LineDef.{LineDef};
ghost use Rattle.irq_model.specs.Lines.{has_device};
ghost use Rattle.run_scripts.specs.Runs.{AreRunsOf};
ghost use Rattle.line_state.specs.Seen.{IsScripted, runs_seen};
ghost use Rattle.line_state.specs.Waits.{wait_at, wait_in_run, wait_of_handler, wait_of_thread};

use crate::state::LineState;
use act_thread::Stage;
use irq_base::{Chip, DevNo, Part, WaitFor};
use line_scripts::wait_of;

impl<C: Chip> LineState<C> {
    /// What the next entry of the device's thread waits for: in a run what its call does; to finish
    /// on a one-shot line the end of the flow (`irq_finalize_oneshot`, `kernel/irq/manage.c`).
    pub fn wait_of_thread(&self, dev: DevNo) -> WaitFor
        ensures { (def : LineDef) → IsScripted def self.now
            → result ≡ wait_of_thread def self.now.state dev }
    {
        match self.threads.get(dev) {
            Some(row) => self.wait_at(dev, row.stage),
            None => WaitFor::Nothing,
        }
    }

    /// The same, of a thread at that stage.
    fn wait_at(&self, dev: DevNo, stage: Stage) -> WaitFor
        ensures { (def : LineDef) → AreRunsOf def (runs_seen self.now)
            → has_device def dev ≡ true
            → result ≡ wait_at def self.now.state dev stage }
    {
        match stage {
            Stage::Begun => self.wait_in_run(dev, Part::Thread),
            Stage::Returned if self.desc.oneshot() => WaitFor::Flow,
            Stage::Idle | Stage::Returned | Stage::Finished => WaitFor::Nothing,
        }
    }

    /// What the next entry of the handler at work waits for; nothing, if none is at work.
    pub fn wait_of_handler(&self) -> WaitFor
        ensures { (def : LineDef) → IsScripted def self.now
            → result ≡ wait_of_handler def self.now.state self.now.state.round.working }
    {
        match self.round.working() {
            Some(dev) => self.wait_in_run(dev, Part::Primary),
            None => WaitFor::Nothing,
        }
    }

    /// What the call waits for that is due in the run; nothing, if the run returns next.
    fn wait_in_run(&self, dev: DevNo, part: Part) -> WaitFor
        ensures { (def : LineDef) → AreRunsOf def (runs_seen self.now)
            → has_device def dev ≡ true
            → result ≡ wait_in_run def self.now.state part dev }
    {
        match self.due_in_run(dev, part) {
            Some((call, within)) => wait_of(call, within),
            None => WaitFor::Nothing,
        }
    }
}
