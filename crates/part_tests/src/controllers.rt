//! A controller that no board has, and messages, by hand.
use chip_kinds::VectorChip;
use chip_msi::{Message, compose};
use irq_base::CpuNo;

#[test]
fn a_vector_is_never_masked(rt: HostRuntime) {
    let mut vector = VectorChip::new();
    assert!(rt; !vector.signal());
    vector.edge();
    assert!(rt; vector.signal());
    vector.ack();
    assert!(rt; !vector.signal());
    assert!(rt; vector.retrigger() && vector.signal());
}

#[test]
fn messages_by_hand(rt: HostRuntime) {
    let messages = [
        (0, 0, 0xFEE0_0000),
        (3, 40, 0xFEE0_3000),
        (31, 4_294_967_295, 0xFEE1_F000),
    ];
    for (cpu, number, address) in messages {
        let message = Message {
            address,
            payload: number,
        };
        assert!(rt; compose(CpuNo(cpu), number) == message);
    }
}
