//! A stored closure.
ghost use Rattle.std.specs.Prelude.{◌≡◌};
ghost use Rattle.irq_base.specs.declared.devices.Answer.{Answer};
ghost use Rattle.irq_base.specs.declared.devices.Run.{Run};
ghost use Rattle.callbacks.specs.Seen.{answer_to};

use crate::handler::{Handler, SharedHandler};
use irq_base::{Answer, Run};

/// A function that stands for all handlers.
pub type Handling = Box<dyn Fn(Run) -> Answer + Sync>;

/// A boxed function, with the facts that it may always be called and that it answers as the devices
/// do. Whoever makes the box hands it in.
#[derive(Drop)]
pub struct Boxed {
    handling: Handling,
    ghost callable: { Handling.IsAlwaysCallable handling },
    ghost by_kind: { (run : Run) (answer : Answer) → Handling.post handling run answer
        → answer ≡ answer_to run },
}

impl Boxed {
    /// Keeps the function.
    pub fn new(handling: Handling) -> Boxed
        requires callable { Handling.IsAlwaysCallable handling }
        requires by_kind { (run : Run) (answer : Answer) → Handling.post handling run answer
            → answer ≡ answer_to run }
    {
        Boxed { handling }
    }

    fn call(&self, run: Run) -> Answer
        ensures by_kind { result ≡ answer_to run }
        ensures by { Handling.post self.now.handling run result }
    {
        (self.handling)(run)
    }
}

impl Handler for Boxed {
    // the function is called, and stays
    ghost hears = { λ old run new. (answer : Answer) × Handling.post old.handling run answer
        × (new ≡ old) };

    fn answer(&mut self, run: Run) -> Answer {
        self.call(run)
    }
}

impl SharedHandler for Boxed {
    ghost gave = { λ handlers run answer. Handling.post handlers.handling run answer };

    fn answer(&self, run: Run) -> Answer {
        self.call(run)
    }
}
