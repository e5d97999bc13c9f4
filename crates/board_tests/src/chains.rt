//! Messages of chains, and of a message controller by itself.
use chip_msi::Message;
use domain_chain::{Chain, MsiChip};
use irq_base::ControllerKind::{Msi, Plain, Remap, Vector};
use irq_base::{Chip, CpuNo};

#[test]
fn messages_while_active(rt: HostRuntime) {
    let mut chain = Chain::new(&[Msi, Remap, Vector], 7);
    assert!(rt; chain.active_levels() == 0 && chain.message().is_none());
    chain.activate();
    chain.aim(CpuNo(3));
    let message = Message {
        address: 0xFEE0_3000,
        payload: 7,
    };
    assert!(rt; chain.active_levels() == 3 && chain.message() == Some(message));
    chain.deactivate();
    assert!(rt; chain.active_levels() == 0 && chain.message().is_none());
    let mut plain = Chain::new(&[Remap, Plain], 7);
    plain.activate();
    assert!(rt; plain.active_levels() == 2 && plain.message().is_none());
    let mut alone = MsiChip::new(40);
    assert!(rt; alone.message().is_none());
    alone.activate();
    let first = Message {
        address: 0xFEE0_0000,
        payload: 40,
    };
    assert!(rt; alone.message() == Some(first));
}
