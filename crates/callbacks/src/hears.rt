//! How a step has the answer of the run that it ends.
ghost use Rattle.std.specs.Prelude.{◌≡◌, IfOk, IfErr, OnErr};
ghost use Rattle.irq_base.specs.declared.devices.Run.{Run};
ghost use Rattle.callbacks.specs.Seen.{answer_to};

use crate::handler::Handler;
use irq_base::{Answer, Run};
use std::convert::Infallible;

/// Who says what a run's handler answers.
pub trait Hears {
    /// What stands for an answer that isn't at hand.
    type Lack;

    /// The answer of a run was had: from what was to what is.
    ghost hears: { Self → Run → Self → Type 0 };

    /// The answer of a run isn't at hand, and this stands for it.
    ghost lacks: { Self → Run → Self.Lack → Type 0 };

    /// The answer of this run, which is its device's.
    ///
    /// # Errors
    ///
    /// The answer isn't at hand. Nothing has changed then.
    fn hear(&mut self, run: Run) -> Result<Answer, Self::Lack>
        ensures by_kind { IfOk result (λ answer. answer ≡ answer_to run) }
        ensures heard { IfOk result (λ answer. hears self.old run self.new) }
        ensures lacking { IfErr result (λ lack. lacks self.old run lack) }
        ensures unheard { OnErr result (self.new ≡ self.old) };

    // an answer that is had isn't lacking
    ghost is_had_or_lacking: { (old new : Self) (run : Run) (lack : Self.Lack) → hears old run new
        → lacks old run lack → ⊥ };

    // and what stands for an answer is one
    ghost lacks_one: { (old : Self) (run : Run) (lack other : Self.Lack) → lacks old run lack
        → lacks old run other → lack ≡ other };
}

/// Handlers at hand: each answer is had by a call.
impl<H: Handler> Hears for H {
    type Lack = Infallible;

    ghost hears = { H.hears };

    ghost lacks = { λ old run lack. ⊥ };

    ghost is_had_or_lacking = { λ old new run lack heard lacking. lacking };

    ghost lacks_one = { λ old run lack other lacking. absurd lacking };

    #[inline(always)]
    fn hear(&mut self, run: Run) -> Result<Answer, Infallible> {
        Ok(self.answer(run))
    }
}
