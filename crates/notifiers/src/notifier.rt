//! Notifiers.
ghost use Rattle.std.specs.Prelude.{◌≡◌, ◌≤◌, ◌%◌, ℕ};
ghost use Rattle.irq_base.specs.declared.numbers.CpuNo.{CpuNo};
ghost use Rattle.irq_base.specs.declared.numbers.LineNo.{LineNo};

use irq_base::{CpuNo, LineNo};

/// The notifiers of all lines (`struct irq_affinity_notify` of `include/linux/interrupt.h`).
pub trait Notifier {
    /// One call for a line on a processor, with the number of the line's queues: from what the
    /// notifiers were to what they are.
    ghost tells: { Self → LineNo → CpuNo → ℕ → Self → Type 0 };

    /// Tells that the line is placed on the processor (`irq_affinity_notify` of
    /// `kernel/irq/manage.c`, there by a work item). Answers which of the line's queues, of which
    /// there is at least one, is served there.
    fn queue(&mut self, line: LineNo, cpu: CpuNo, queues: u32) -> u32
        requires { 1 ≤ queues }
        ensures queue { result ≡ cpu.0 % queues }
        ensures told { tells self.old line cpu queues self.new };
}
