//! Handlers.
ghost use Rattle.std.specs.Prelude.{◌≡◌};
ghost use Rattle.irq_base.specs.declared.devices.Answer.{Answer};
ghost use Rattle.irq_base.specs.declared.devices.Run.{Run};
ghost use Rattle.callbacks.specs.Seen.{answer_to};

use irq_base::{Answer, Run};

/// The handlers of all devices, primary and threaded (`irq_handler_t` of
/// `include/linux/interrupt.h`).
pub trait Handler {
    /// One call for a run: from what the handlers were to what they are.
    ghost hears: { Self → Run → Self → Type 0 };

    /// Calls the handler of this run (`action->handler`, `__handle_irq_event_percpu` of
    /// `kernel/irq/handle.c`; `action->thread_fn`, `irq_thread_fn` of `kernel/irq/manage.c`), and
    /// has its answer, which is its device's.
    fn answer(&mut self, run: Run) -> Answer
        ensures by_kind { result ≡ answer_to run }
        ensures heard { hears self.old run self.new };
}

/// The handlers of all devices, which threads share.
pub trait SharedHandler {
    /// Evidence that these handlers gave this answer in a call for this run.
    ghost gave: { Self → Run → Answer → Type 0 };

    /// Calls the handler of this run, and has its answer, which is its device's.
    fn answer(&self, run: Run) -> Answer
        ensures by_kind { result ≡ answer_to run }
        ensures gave { gave self.now run result };
}
