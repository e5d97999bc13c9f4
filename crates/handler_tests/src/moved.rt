//! Threads run the board of a plan, so that interrupts come after a move too. In a play the moves
//! come last.
use board_lines::MakesChainLine;
use board_text::read_board;
use callbacks::ByKind;
use irq_base::{CpuEntry, CpuNo, DriverEntry, Entry, LineNo, NoMemory, Reports};
use irq_io::MemSink;
use irq_run::run_and_print;
use std::alloc::Global;
use std::sync::Wait;
use std::test::Fail;
use std::thread::Threads;
use workers::NoGate;

/// The plan of a board whose line 1 prefers processor 1, which goes offline: by hand, driver 65535
/// moves the line to processor 0.
const PLANNED: &[u8] = b"board 1
cpus 2
domain intc linear 4 latch
line 1 intc 2 mask 2
device 1 1 direct
driver 1
request 1
ask 1
ask 1
ask 1
ask 1
ask 1
ask 1
ask 1
ask 1
driver 65535
affinity 1 1
";

/// How many takes by processor 0 stand after the last move, and how many by others.
#[derive(Clone, Copy)]
struct Taken {
    here: u32,
    elsewhere: u32,
}

/// Counts the takes of line 1.
fn count_takes(reports: &Reports) -> Taken {
    let mut taken = Taken {
        here: 0,
        elsewhere: 0,
    };
    let Some(report) = reports.get(0) else {
        return taken;
    };
    for k in 0..report.history.len() {
        match report.history.get(k) {
            Some(Entry::Driver(_, DriverEntry::Affinity { .. })) => {
                taken = Taken {
                    here: 0,
                    elsewhere: 0,
                };
            }
            Some(Entry::Cpu(cpu, CpuEntry::Take { .. })) => {
                if cpu == CpuNo(0) {
                    taken.here = taken.here.saturating_add(1);
                } else {
                    taken.elsewhere = taken.elsewhere.saturating_add(1);
                }
            }
            _ => {}
        }
    }
    taken
}

/// Runs the planned board once.
fn run_once<R: Threads + Wait + Sync>(rt: &R, alloc: Global) -> Result<Option<Taken>, NoMemory> {
    let Ok(board) = read_board(alloc, PLANNED) else {
        return Ok(None);
    };
    let mut out = MemSink::new(alloc, &[], 10_000)?;
    let ran = run_and_print(
        rt,
        alloc,
        &board,
        false,
        &MakesChainLine,
        &NoGate,
        &ByKind,
        &mut out,
    );
    if ran.end.is_err() {
        return Ok(None);
    }
    Ok(Some(count_takes(&ran.reports)))
}

/// After the move each take is by processor 0; and within 1,000 runs some take comes after it.
#[test]
fn interrupts_go_where_the_line_is_placed(rt: HostRuntime) -> Result<(), Fail> {
    for _ in 0..1000 {
        let Some(taken) = run_once(&rt, rt.alloc())? else {
            panic!(rt; "a run didn't come to its end")
        };
        assert!(rt; taken.elsewhere == 0);
        if taken.here > 0 {
            return Ok(());
        }
    }
    panic!(rt; "no interrupt came after the move")
}
