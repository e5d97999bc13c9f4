//! How a line is left.

use irq_base::Actor;

/// How a line stands on which nobody moves any more: whether something is linked, and whether it is
/// enabled.
#[derive(Clone, Copy, PartialEq, Eq)]
pub enum Standing {
    /// No device is linked: the line is shut down (`desc->action` is `NULL`; `irq_shutdown`,
    /// `kernel/irq/chip.c`).
    Stopped,
    /// A device is linked, and the depth is 0.
    Enabled,
    /// A device is linked, and the depth is above 0: some disable has no enable (`desc->depth`,
    /// `__disable_irq`, `kernel/irq/manage.c`), or the request that linked it asked not to start
    /// the line (`IRQF_NO_AUTOEN`).
    Disabled,
    /// Disabled, and the line was killed for too many unhandled interrupts after the last request
    /// that was linked (`IRQS_SPURIOUS_DISABLED`, `note_interrupt`, `kernel/irq/spurious.c`).
    Killed,
}

/// How a history leaves its line.
#[derive(Clone, Copy, PartialEq, Eq)]
pub struct Left {
    /// Who is hung: the lowest actor that waits for itself, at once or through others, and for
    /// ever. None: the line is at rest, and all calls are complete.
    pub hung: Option<Actor>,
    /// How the line stands.
    pub standing: Standing,
    /// How many asks of the line's devices, linked or not, are unserved (Linux doesn't see what its
    /// devices want).
    pub unserved: u64,
    /// Of an edge line: the masked chip keeps an edge, which comes when the line is opened. Never
    /// of a level line.
    pub stored: bool,
    /// Of an edge line: an interrupt came that wasn't handled, and a start would resend it
    /// (`IRQS_PENDING`, `kernel/irq/chip.c`, `resend.c`). Never of a level line, whose signal shows
    /// it by itself.
    pub pending: bool,
}
