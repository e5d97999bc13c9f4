//! Threads run a board with a threaded device, and each worker makes its actor's steps by itself.
//!
//! The processor's and the thread's workers first find nothing. Then the driver asks again and
//! again, each time once the thread has served the ask before: in one thread alone, or with a
//! worker that never looks again, nobody would serve it.
use board_lines::MakesChainLine;
use board_text::read_board;
use callbacks::{ByKind, SharedHandler};
use irq_base::{Actor, Answer, CpuNo, DevNo, Part, Reports, Run};
use irq_io::MemSink;
use irq_run::run_and_print;
use std::hint::spin_loop;
use std::sync::atomic::{AtomicBool, AtomicU64, Ordering};
use std::test::Fail;
use std::thread::yield_now;
use workers::Gate;

const BOARD: &[u8] = b"board 1
domain a linear 1 latch
line 1 a 0
device 1 1 check
driver 1
request 1
ask 1
ask 1
ask 1
";

/// How often the device asks on the board.
const ASKS: u64 = 3;

/// How often a hold looks at most.
const LOOKS: u64 = 100_000_000;

/// After this many looks other threads are let run.
const SPINS: u64 = 64;

/// What has come so far.
#[derive(Drop)]
struct Progress {
    /// The driver's turns: at turn N its first N - 1 entries are made.
    driver: AtomicU64,
    /// The processor's turns.
    cpu: AtomicU64,
    /// The thread's turns.
    thread: AtomicU64,
    /// Calls of the handler, and how many of them had come at the processor's last turn.
    called: AtomicU64,
    woken: AtomicU64,
    /// Calls of the thread's function.
    served: AtomicU64,
    /// Nobody is held any more: all is served, or a hold has used up its looks.
    is_free: AtomicBool,
}

impl Progress {
    fn new() -> Progress {
        Progress {
            driver: AtomicU64::new(0),
            cpu: AtomicU64::new(0),
            thread: AtomicU64::new(0),
            called: AtomicU64::new(0),
            woken: AtomicU64::new(0),
            served: AtomicU64::new(0),
            is_free: AtomicBool::new(false),
        }
    }

    /// Waits until the count is above `low`, or nobody is held any more.
    fn hold(&self, count: &AtomicU64, low: u64) {
        for look in 1..=LOOKS {
            if count.load(Ordering::SeqCst) > low || self.is_free.load(Ordering::SeqCst) {
                return;
            }
            if look % SPINS == 0 {
                yield_now();
            } else {
                spin_loop();
            }
        }
        self.is_free.store(true, Ordering::SeqCst);
    }

    /// The driver's first turn comes once the others have found nothing, each ask once those before
    /// it are served.
    fn pass_driver(&self, turn: u64) {
        self.driver.store(turn, Ordering::SeqCst);
        if turn == 1 {
            self.hold(&self.cpu, 1);
            self.hold(&self.thread, 1);
        }
        if turn > 2 {
            self.hold(&self.served, turn.saturating_sub(3));
        }
        if turn > ASKS + 1 {
            self.is_free.store(true, Ordering::SeqCst);
        }
    }

    /// After two turns the processor goes on only if an ask came since the handler's last call.
    fn pass_cpu(&self, turn: u64) {
        self.cpu.store(turn, Ordering::SeqCst);
        let called = self.called.load(Ordering::SeqCst);
        self.woken.store(called, Ordering::SeqCst);
        if turn > 2 {
            self.hold(&self.driver, called.saturating_add(2));
        }
    }

    /// After two turns the thread goes on only if it was woken since its function's last call.
    fn pass_thread(&self, turn: u64) {
        self.thread.store(turn, Ordering::SeqCst);
        if turn > 2 {
            self.hold(&self.woken, self.served.load(Ordering::SeqCst));
        }
    }
}

impl Gate for Progress {
    fn pass(&self, actor: Actor, turn: u64) {
        match actor {
            Actor::Driver(_) => self.pass_driver(turn),
            Actor::Cpu(_) => self.pass_cpu(turn),
            Actor::Thread(_) => self.pass_thread(turn),
        }
    }
}

/// Handlers that tell that they were called, and answer by the kind.
#[derive(Clone, Copy)]
struct Tells<'p> {
    progress: &'p Progress,
}

impl SharedHandler for Tells<'_> {
    ghost gave = { λ handlers run answer. Unit {0} };

    fn answer(&self, run: Run) -> Answer {
        let calls = match run.part {
            Part::Primary => &self.progress.called,
            Part::Thread => &self.progress.served,
        };
        calls.fetch_add(1, Ordering::SeqCst);
        ByKind.answer(run)
    }
}

/// How many entries of the first line's history the actor made.
fn entries_of(reports: &Reports, actor: Actor) -> u64 {
    let Some(report) = reports.get(0) else {
        return 0;
    };
    let mut found: u64 = 0;
    for k in 0..report.history.len() {
        if let Some(entry) = report.history.get(k) {
            found = found.saturating_add(u64::from(entry.actor() == actor));
        }
    }
    found
}

/// Whether the actor made `entries` entries, and had a turn for each.
fn has_made(reports: &Reports, actor: Actor, turns: &AtomicU64, entries: u64) -> bool {
    entries_of(reports, actor) == entries && turns.load(Ordering::SeqCst) >= entries
}

/// By hand: of each ask a take, a begin, a return and an end, and of the thread a begin, a return
/// and a done.
#[test]
fn each_worker_makes_its_steps(rt: HostRuntime) -> Result<(), Fail> {
    let Ok(board) = read_board(rt.alloc(), BOARD) else {
        panic!(rt; "the board has a fault")
    };
    let progress = Progress::new();
    let handlers = Tells {
        progress: &progress,
    };
    let mut out = MemSink::new(rt.alloc(), &[], 1000)?;
    let ran = run_and_print(
        &rt,
        rt.alloc(),
        &board,
        false,
        &MakesChainLine,
        &progress,
        &handlers,
        &mut out,
    );
    assert!(rt; ran.end.is_ok() && progress.served.load(Ordering::SeqCst) == ASKS);
    let thread = Actor::Thread(DevNo(1));
    assert!(rt; has_made(&ran.reports, Actor::Cpu(CpuNo(0)), &progress.cpu, 4 * ASKS));
    assert!(rt; has_made(&ran.reports, thread, &progress.thread, 3 * ASKS));
    Ok(())
}
