//! What a chain sends.
ghost use Rattle.std.specs.Prelude.{◌≡◌, ◌<◌, None, false};
ghost use Rattle.std.specs.Option.{option_map};
ghost use Rattle.chip_msi.specs.Messages.{message_of};

use crate::chain::Chain;
use chip_msi::Message;
use irq_base::{Chip, CpuNo};

/// What a chain sends while it is active and after that. It is activated, aimed at the processor,
/// and deactivated again (`msi_domain_activate`, `msi_domain_set_affinity`,
/// `msi_domain_deactivate`, `kernel/irq/msi.c`). While it is active it sends to that processor the
/// number at its root, if a level sends messages, and after that it sends nothing.
pub fn sent_while_active(chain: &mut Chain, cpu: CpuNo) -> (Option<Message>, Option<Message>)
    requires { cpu.0 < 32 }
    ensures active { result.0 ≡ option_map (message_of cpu.0) chain.old.number }
    ensures after { result.1 ≡ None }
    ensures chain { chain.new ≡ record chain.old { active = false; aimed = cpu.0 } }
{
    chain.activate();
    chain.aim(cpu);
    let sent = chain.message();
    chain.deactivate();
    (sent, chain.message())
}
