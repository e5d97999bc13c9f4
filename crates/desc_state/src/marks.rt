//! What a descriptor keeps.
use irq_base::CpuNo;

/// All that the descriptor of a line keeps (`struct irq_desc`, `include/linux/irqdesc.h`).
#[derive(Clone, Copy)]
pub struct DescMarks {
    /// Disabling masks the chip at once (`IRQ_DISABLE_UNLAZY`).
    pub unlazy: bool,
    /// How many disables stand (`depth`).
    pub depth: u32,
    /// The line was started and not shut down since (`IRQD_IRQ_STARTED`).
    pub started: bool,
    /// The chip's mask is closed (`IRQD_IRQ_MASKED`).
    pub masked: bool,
    /// An interrupt came that no handler was called for (`IRQS_PENDING`).
    pub pending: bool,
    /// The line stays masked until its threads are done (`IRQS_ONESHOT`).
    pub oneshot: bool,
    /// A storm disabled the line (`IRQS_SPURIOUS_DISABLED`).
    pub spurious: bool,
    /// The software is to send an interrupt again (the line's bit of `irqs_resend`,
    /// `kernel/irq/resend.c`).
    pub soft: bool,
    /// The processor whose flow is in progress, if one is (`IRQD_IRQ_INPROGRESS`).
    pub flow: Option<CpuNo>,
}
