//! The call that is due in a run, and what the run answers.
ghost use Rattle.std.specs.Prelude.{◌≡◌, true, IfSome};
ghost use Rattle.irq_base.specs.declared.lines.LineDef.{LineDef};
ghost use Rattle.irq_model.specs.Lines.{has_device};
ghost use Rattle.irq_model.specs.Runs.{is_recognised};
ghost use Rattle.run_scripts.specs.Runs.{AreRunsOf};
ghost use Rattle.line_marks.specs.Runs.{answer_at, met_at, told_at, makes_calls_at, due_in_run_at};
ghost use Rattle.line_state.specs.Seen.{HasCall, runs_seen};

use crate::runs::met_in;
use crate::state::LineState;
use irq_base::{Answer, Call, Chip, DevNo, Part, ToldAnswer};

impl<C: Chip> LineState<C> {
    /// The first call that isn't complete of the run that is there, and how many entries it has
    /// made. A handler that doesn't recognise its device makes none.
    #[inline(always)]
    pub(crate) fn due_in_run(&self, dev: DevNo, part: Part) -> Option<(Call, u32)>
        ensures due { (def : LineDef) → AreRunsOf def (runs_seen self.now)
            → has_device def dev ≡ true
            → result ≡ due_in_run_at def self.now.state part dev }
        ensures there { IfSome result (λ due. HasCall self.now part dev) }
    {
        let due = self.runs.due(dev, part)?;
        if self.makes_calls(dev, part) {
            Some(due)
        } else {
            None
        }
    }

    /// Whether the run makes its calls at all.
    fn makes_calls(&self, dev: DevNo, part: Part) -> bool
        ensures { (def : LineDef) → AreRunsOf def (runs_seen self.now)
            → has_device def dev ≡ true
            → result ≡ makes_calls_at def self.now.state part dev }
    {
        match part {
            Part::Primary => is_recognised(self.answer(dev, part)),
            Part::Thread => true,
        }
    }

    /// What the run that is there answers.
    fn answer(&self, dev: DevNo, part: Part) -> Answer
        ensures { (def : LineDef) → AreRunsOf def (runs_seen self.now)
            → has_device def dev ≡ true → result ≡ answer_at def self.now.state part dev }
    {
        let told = self.runs.told(dev, part);
        self.kind(dev).answer(part, self.met(dev, part), told)
    }

    /// The asks of the device that were unserved as the run of that part last began.
    #[inline(always)]
    pub fn met(&self, dev: DevNo, part: Part) -> u32
        ensures { result ≡ met_at self.now.state part dev }
    {
        met_in(part, self.asks.get(dev))
    }

    /// What the run that is there is told to answer; none of a device that isn't told.
    #[inline(always)]
    pub(crate) fn told(&self, dev: DevNo, part: Part) -> Option<ToldAnswer>
        ensures { (def : LineDef) → AreRunsOf def (runs_seen self.now)
            → has_device def dev ≡ true → result ≡ told_at def self.now.state part dev }
    {
        self.runs.told(dev, part)
    }
}

/// Whether the handler recognises its device.
fn is_recognised(answer: Answer) -> bool
    ensures { result ≡ is_recognised answer }
{
    answer != Answer::Nothing
}
