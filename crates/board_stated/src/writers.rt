//! Whose script is written.
use irq_base::{DevNo, Part};

/// Whose script the calls of the next text lines belong to.
#[derive(Clone, Copy, PartialEq, Eq)]
pub enum Writer {
    /// Nobody's: a call may not stand here.
    Nobody,
    /// The last driver's.
    Driver,
    /// That of the device's runs of that part.
    Runs { dev: DevNo, part: Part },
}
