//! Each placing is told to the notifier, once.
ghost use Rattle.std.specs.Prelude.{◌≡◌, ◌+◌, ◌-◌, ◌*◌, ◌^◌, min};

use board_lines::MakesChainLine;
use board_text::read_board;
use callbacks::ByKind;
use hotplug_play::hotplug_and_print;
use irq_base::{CpuNo, LineNo};
use irq_hotplug::Event;
use irq_io::MemSink;
use notifiers::Notifier;
use std::test::Fail;

/// Line 1 prefers processor 1, and line 2 takes any.
const BOARD: &[u8] = b"board 1
cpus 2
domain intc linear 4 latch
line 1 intc 2 mask 2
line 2 intc 3
device 1 1 direct
device 2 2 direct
driver 1
request 1
ask 1
";

/// Two vectors a processor: line 1 goes to processor 0 with processor 1, and both lines go to
/// processor 1 with processor 0. The five placings are five calls: of lines 1, 2, 1, 1, 2, which
/// go to processors 1, 0, 0, 1, 1.
const EVENTS: [Event; 4] = [
    Event::Off(CpuNo(1)),
    Event::Off(CpuNo(0)),
    Event::On(CpuNo(1)),
    Event::Off(CpuNo(0)),
];

const PRINTED: &[u8] = b"# irq 1 virq 1 intc:2
# irq 2 virq 2 intc:3
# vector 1 1 0 0
# vector 2 0 0 0
# off 1 ok
# vector 1 0 1 0
# off 0 refused last
# on 1 ok
# off 0 ok
# vector 1 1 0 0
# vector 2 1 1 0
1 d1 request 1 - linked started no
1 d1 ask 1
1 c1 take line handle
1 c1 begin 1
1 c1 return 1 handled 1
1 c1 end leave asis quiet
1 d65535 affinity 1 now
1 d65535 affinity 2 now
2 d65535 affinity 2 now
";

/// A notifier that counts how often it is called, and adds up the lines and processors that it is
/// told of: a call is 1, a line's number counts hundreds, a processor's ten thousands.
#[derive(Clone, Copy)]
struct Counting {
    told: u64,
}

impl Notifier for Counting {
    ghost tells = { λ old line cpu queues new.
        new.told ≡ min (old.told + (1 + 100 * line.0 + 10000 * cpu.0)) (2 ^ 64 - 1) };

    fn queue(&mut self, line: LineNo, cpu: CpuNo, queues: u32) -> u32 {
        let told = 1 + 100 * u64::from(line.0) + 10_000 * u64::from(cpu.0);
        self.told = self.told.saturating_add(told);
        cpu.0 % queues
    }
}

#[test]
fn each_placing_is_told_once(rt: HostRuntime) -> Result<(), Fail> {
    let mut notify = Counting { told: 0 };
    let Ok(board) = read_board(rt.alloc(), BOARD) else {
        panic!(rt; "the board has a fault")
    };
    let mut out = MemSink::new(rt.alloc(), &[], 1000)?;
    let played = hotplug_and_print(
        rt.alloc(),
        board,
        2,
        &EVENTS,
        &MakesChainLine,
        &mut ByKind,
        &mut notify,
        &mut out,
    );
    let Ok(played) = played else {
        panic!(rt; "the board fits")
    };
    assert!(rt; played.end.is_ok() && played.reports.len() == 2);
    assert!(rt; out.written() == PRINTED);
    assert_eq!(rt; notify.told, 30_705);
    Ok(())
}
