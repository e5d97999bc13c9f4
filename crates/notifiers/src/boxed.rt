//! A stored closure.
ghost use Rattle.std.specs.Prelude.{◌≡◌, ◌≤◌, ◌%◌, ℕ};
ghost use Rattle.irq_base.specs.declared.numbers.CpuNo.{CpuNo};
ghost use Rattle.irq_base.specs.declared.numbers.LineNo.{LineNo};

use crate::notifier::Notifier;
use irq_base::{CpuNo, LineNo};

/// A function that stands for all notifiers: the line, its processor, how many queues it has.
pub type Notifying = Box<dyn Fn(LineNo, CpuNo, u32) -> u32 + Sync>;

/// A boxed function, with the facts that it may always be called and that it answers with the
/// processor modulo the queues, where there are any. Whoever makes the box hands it in.
#[derive(Drop)]
pub struct BoxedNotifier {
    notifying: Notifying,
    ghost callable: { Notifying.IsAlwaysCallable notifying },
    ghost by_processor: { (l : LineNo) (c : CpuNo) (n : ℕ) (q : ℕ)
        → Notifying.post notifying l c n q → 1 ≤ n → q ≡ c.0 % n },
}

impl BoxedNotifier {
    /// Keeps the function (`irq_set_affinity_notifier` of `kernel/irq/manage.c`).
    pub fn new(notifying: Notifying) -> BoxedNotifier
        requires callable { Notifying.IsAlwaysCallable notifying }
        requires by_processor { (l : LineNo) (c : CpuNo) (n : ℕ) (q : ℕ)
            → Notifying.post notifying l c n q → 1 ≤ n → q ≡ c.0 % n }
    {
        BoxedNotifier { notifying }
    }
}

impl Notifier for BoxedNotifier {
    // the function is called, and stays
    ghost tells = { λ old line cpu queues new. (queue : ℕ)
        × Notifying.post old.notifying line cpu queues queue × (new ≡ old) };

    fn queue(&mut self, line: LineNo, cpu: CpuNo, queues: u32) -> u32 {
        (self.notifying)(line, cpu, queues)
    }
}
