//! Boards that are run by threads, under a gate and handlers that hold them, and the reports of a
//! run whose log is full.
use crate::meeting::{Meeting, Meets};
use board_lines::MakesChainLine;
use callbacks::{ByKind, SharedHandler};
use irq_base::{
    Actor, Answer, CpuEntry, CpuNo, DevNo, DriverEntry, DriverNo, Entry, Flags, LinkAnswer,
    NoMemory, Note, Opened, Reports, Resend, TakeAnswer, Way,
};
use irq_io::{MemSink, MemSource};
use irq_top::{Outcome, irq_main};
use notifiers::ByProcessor;
use std::alloc::Global;
use std::sync::Wait;
use std::test::Fail;
use std::thread::Threads;
use workers::{Gate, NoGate};

/// Each line has a processor of its own, and each driver a line.
const TWO_LINES: &str = "board 1
cpus 2
domain intc linear 4 latch
line 1 intc 2 mask 1
line 2 intc 3 mask 2
device 1 1 direct
device 2 2 direct
driver 1
request 1
ask 1
ask 1
driver 2
request 2
ask 2
ask 2
";

/// Nobody recognises the interrupt, its level stays high, and seven unhandled rounds kill no line.
const STORM: &str = "board 1
spurious 10 8
log 30
domain intc linear 4 level
line 1 intc 2
device 1 1 stuck
driver 1
request 1
ask 1
";

/// The first two entries of the storm.
const STORM_BEGINS: [Entry; 2] = [
    Entry::Driver(
        DriverNo(1),
        DriverEntry::Request {
            flags: Flags::NONE,
            answer: LinkAnswer::Linked,
            opened: Opened::Started { resend: Resend::No },
            dev: DevNo(1),
        },
    ),
    Entry::Driver(
        DriverNo(1),
        DriverEntry::Ask {
            edge: true,
            dev: DevNo(1),
        },
    ),
];

/// The four entries of the storm that come again and again.
const STORM_GOES_ON: [Entry; 4] = [
    Entry::Cpu(
        CpuNo(0),
        CpuEntry::Take {
            way: Way::Line,
            answer: TakeAnswer::Handle,
        },
    ),
    Entry::Cpu(CpuNo(0), CpuEntry::Begin { dev: DevNo(1) }),
    Entry::Cpu(
        CpuNo(0),
        CpuEntry::Return {
            answer: Answer::Nothing,
            dev: DevNo(1),
            served: 0,
        },
    ),
    Entry::Cpu(
        CpuNo(0),
        CpuEntry::End {
            again: false,
            unmask: true,
            note: Note::Counted,
        },
    ),
];

/// Runs the board under the gate, with these handlers shared.
fn run<R: Threads + Wait + Sync, G: Gate + Sync, S: SharedHandler + Sync>(
    rt: &R,
    alloc: Global,
    board: &str,
    gate: &G,
    shared: &S,
) -> Result<Outcome, NoMemory> {
    let mut src = MemSource::new(alloc, board.as_bytes(), 100, &[])?;
    let mut out = MemSink::new(alloc, &[], 10_000)?;
    let mut err = MemSink::new(alloc, &[], 100)?;
    Ok(irq_main(
        rt,
        alloc,
        &["run"],
        &mut src,
        &mut out,
        &mut err,
        gate,
        &mut ByKind,
        shared,
        &MakesChainLine,
        &mut ByProcessor,
    ))
}

/// Which entries are counted.
#[derive(Clone, Copy)]
enum Counted {
    By(Actor),
    ReturnOf(DevNo),
}

impl Counted {
    fn is(self, entry: &Entry) -> bool {
        match (self, entry) {
            (Counted::By(actor), _) => entry.actor() == actor,
            (Counted::ReturnOf(device), Entry::Cpu(_, CpuEntry::Return { dev, .. })) => {
                *dev == device
            }
            (Counted::ReturnOf(_), _) => false,
        }
    }
}

/// How many such entries the reports have.
fn count(reports: &Reports, counted: Counted) -> u64 {
    let mut found: u64 = 0;
    for i in 0..reports.len() {
        let Some(report) = reports.get(i) else {
            continue;
        };
        for k in 0..report.history.len() {
            if let Some(entry) = report.history.get(k) {
                found = found.saturating_add(u64::from(counted.is(&entry)));
            }
        }
    }
    found
}

/// Two lines are run under a gate and handlers that hold one another until the other has come.
/// Each actor has at least as many attempts as entries, and each handler is called once for each of
/// its device's returns.
#[test]
fn two_lines_meet(rt: HostRuntime) -> Result<(), Fail> {
    let meeting = Meeting::new();
    let handlers = Meets { meeting: &meeting };
    let outcome = run(&rt, rt.alloc(), TWO_LINES, &meeting, &handlers)?;
    assert_eq!(rt; outcome.ending.status(), 0);
    assert!(rt; !meeting.is_given_up() && !meeting.is_miscounted());
    for actor in [
        Actor::Driver(DriverNo(1)),
        Actor::Driver(DriverNo(2)),
        Actor::Cpu(CpuNo(0)),
        Actor::Cpu(CpuNo(1)),
    ] {
        assert!(rt; count(&outcome.reports, Counted::By(actor)) <= meeting.attempts_of(actor));
    }
    for device in [DevNo(1), DevNo(2)] {
        let calls = meeting.calls_of(device);
        assert!(rt; calls > 0 && count(&outcome.reports, Counted::ReturnOf(device)) == calls);
    }
    Ok(())
}

/// A run whose log is full prints nothing, and hands out the entries up to there.
#[test]
fn entries_of_a_full_log(rt: HostRuntime) -> Result<(), Fail> {
    let outcome = run(&rt, rt.alloc(), STORM, &NoGate, &ByKind)?;
    assert_eq!(rt; outcome.ending.status(), 6);
    let report = outcome.reports.get(0).ok_or("no report")?;
    assert!(rt; outcome.reports.len() == 1 && report.history.len() == 30);
    for i in 0..30 {
        let wanted = if i < 2 {
            STORM_BEGINS[i]
        } else {
            STORM_GOES_ON[(i - 2) % 4]
        };
        assert!(rt; report.history.get(i) == Some(wanted), "entry {i}");
    }
    Ok(())
}
