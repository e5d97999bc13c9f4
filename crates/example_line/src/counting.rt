//! A handler of one's own.
ghost use Rattle.std.specs.Prelude.{◌≡◌, ◌+◌, ◌-◌, ◌^◌, min};

use callbacks::{ByKind, Handler};
use irq_base::{Answer, Run};

/// Counts how often it is called. Its answers are those of its device's kind, as the trait asks.
#[derive(Clone, Copy)]
pub struct Counting {
    /// How often it was called.
    pub calls: u64,
}

impl Handler for Counting {
    // a call is one more, as far as a `u64` counts
    ghost hears = { λ old run new. new.calls ≡ min (old.calls + 1) (2 ^ 64 - 1) };

    fn answer(&mut self, run: Run) -> Answer {
        self.calls = self.calls.saturating_add(1);
        Handler::answer(&mut ByKind, run)
    }
}
