//! A notifier that tells nobody.
use crate::notifier::Notifier;
use irq_base::{CpuNo, LineNo};

/// Each processor serves the queue of its number, from queue 0 again where there are fewer: for a
/// program without drivers of its own.
#[derive(Clone, Copy)]
pub struct ByProcessor;

impl Notifier for ByProcessor {
    // a call leaves no trace
    ghost tells = { λ old line cpu queues new. Unit {0} };

    fn queue(&mut self, _line: LineNo, cpu: CpuNo, queues: u32) -> u32 {
        cpu.0 % queues
    }
}
