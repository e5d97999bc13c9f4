//! What was said before.
use crate::hears::Hears;
use crate::said::Said;
use irq_base::{Answer, Run};

/// What was said before a step, where no handler is at hand: an answer that serves one run, or
/// none.
#[derive(Drop)]
pub struct Before {
    /// The answer, until it is had.
    pub said: Option<Said>,
}

impl Hears for Before {
    ghost use Rattle.std.specs.Prelude.{◌≡◌, None};
    ghost use Rattle.std.proofs.Common.{sym, ◌∙◌};
    ghost use Rattle.callbacks.specs.Seen.{IsSaidFor};

    type Lack = Run;

    ghost hears = { λ old run new. IsSaidFor old.said run × (new.said ≡ None) };

    ghost lacks = { λ old run lack. (lack ≡ run) × (IsSaidFor old.said run → ⊥) };

    ghost is_had_or_lacking = { λ old new run lack heard lacking. lacking.1 heard.0 };

    ghost lacks_one = { λ old run lack other lacking others. lacking.0 ∙ sym others.0 };

    #[inline(always)]
    fn hear(&mut self, run: Run) -> Result<Answer, Run> {
        let answer = match &self.said {
            Some(said) if said.is_for(run) => said.answer(),
            _ => return Err(run),
        };
        self.said = None;
        Ok(answer)
    }
}
