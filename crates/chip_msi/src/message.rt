//! What a message writes, and where.
ghost use Rattle.std.specs.Prelude.{◌≡◌, ◌<◌};
ghost use Rattle.chip_msi.specs.Messages.{message_of};

use irq_base::CpuNo;

/// A message: a write that raises an interrupt (`struct msi_msg`).
#[derive(Clone, Copy, PartialEq, Eq)]
pub struct Message {
    /// Where it is written to.
    pub address: u32,
    /// What is written.
    pub payload: u32,
}

/// The message that sends the number to a processor below 32 (`irq_chip_compose_msi_msg`,
/// `kernel/irq/chip.c`). Its address is 0xFEE00000 plus 4,096 times the processor's number, its
/// payload the number (ours, in the manner of x86).
pub fn compose(cpu: CpuNo, number: u32) -> Message
    requires { cpu.0 < 32 }
    ensures { result ≡ message_of cpu.0 number }
{
    Message {
        address: 0xFEE0_0000 + 4096 * cpu.0,
        payload: number,
    }
}
