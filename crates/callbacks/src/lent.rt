//! Shared handlers, at hand.
use crate::handler::{Handler, SharedHandler};
use irq_base::{Answer, Run};

/// Handlers that are shared, at hand for who has a step to make alone.
#[derive(Clone, Copy)]
pub struct Lent<'a, G: SharedHandler>(pub &'a G);

impl<G: SharedHandler> Handler for Lent<'_, G> {
    ghost use Rattle.std.specs.Prelude.{◌≡◌};
    ghost use Rattle.callbacks.specs.Seen.{answer_to};

    // the call was one of theirs
    ghost hears = { λ old run new. G.gave old.0.now run (answer_to run) × (new ≡ old) };

    fn answer(&mut self, run: Run) -> Answer {
        self.0.answer(run)
    }
}
