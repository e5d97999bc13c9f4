//! Memory is refused, or not, as a processor goes offline: each line is where it was, or each is on
//! the other processor. `rt try --test --fail-alloc N` refuses it, for each N.
use board_layout::lay;
use board_text::read_board;
use irq_base::{CpuNo, LineNo, NoMemory};
use irq_hotplug::{Fleet, OffAnswer, Place};
use notifiers::ByProcessor;
use std::test::Fail;

/// Both lines prefer processor 1; line 1 has three queues.
const BOARD: &[u8] = b"board 1
cpus 2
domain intc linear 4 latch
line 1 intc 2 mask 2
line 2 intc 3 mask 2
device 1 1 direct
device 2 1 direct
device 3 1 direct
";

/// The place of a line with this vector of the processor, and this queue.
const fn at(cpu: u32, vector: u32, queue: u32) -> Option<Place> {
    Some(Place {
        cpu: CpuNo(cpu),
        vector,
        queue,
    })
}

#[test]
fn all_lines_move_or_none(rt: HostRuntime) -> Result<(), Fail> {
    let Ok(board) = read_board(rt.alloc(), BOARD) else {
        panic!(rt; "the board has a fault")
    };
    let mut notify = ByProcessor;
    let (_domains, layout) = lay(rt.alloc(), &board)?;
    let mut fleet = Fleet::new(rt.alloc(), &board, &layout, 3, &mut notify)?;
    let (one, two) = (LineNo(1), LineNo(2));
    assert!(rt; fleet.place(one) == at(1, 0, 1) && fleet.place(two) == at(1, 1, 0));
    assert!(rt; fleet.place(LineNo(3)) == None);
    match fleet.offline(rt.alloc(), CpuNo(1), &mut notify) {
        Ok(answer) => {
            assert!(rt; answer == OffAnswer::Ok);
            assert!(rt; fleet.place(one) == at(0, 0, 0) && fleet.place(two) == at(0, 1, 0));
            let words = fleet.finish();
            assert!(rt; words[0] == 3 && words[1] == 0);
        }
        Err(NoMemory) => {
            assert!(rt; fleet.place(one) == at(1, 0, 1) && fleet.place(two) == at(1, 1, 0));
            let words = fleet.finish();
            assert!(rt; words[0] == 0 && words[1] == 3);
        }
    }
    Ok(())
}
