//! Shifts of threads over the jobs.
ghost use Rattle.std.specs.Prelude.{◌≡◌, ◌<◌, ◌≤◌, ℕ, Some, Ok, All, length, slice_get};
ghost use Rattle.workers.specs.Fit.{Fit, IsJob};
ghost use Rattle.workers.specs.Forks.{AreBoards};
ghost use Rattle.workers.specs.Room.{room_of_jobs};
ghost use Rattle.workers.specs.Grown.{JobsGrow};
ghost use Rattle.workers.specs.Shifts.{EachEndedSo, Ends, KeepsJobs, MadeNone, SumsUp, worse};
ghost use Rattle.workers.specs.Shifts.{worse_refusal};
ghost use Rattle.workers.specs.Seen.{JobSeen};
ghost use Rattle.workers.specs.declared.job.Work.TheVariants as works;
ghost use Rattle.workers.specs.Terms.{terms_of};

use crate::gate::Gate;
use crate::job::{Job, Work};
use crate::jobs::Jobs;
use crate::lines::SharedLines;
use crate::sweeps::work_on;
use board_def::Board;
use callbacks::SharedHandler;
use irq_line::{IrqLine, StepRefused};
use std::sync::Wait;
use std::sync::atomic::{AtomicU64, Ordering};
use std::thread::{self, Threads};

/// Makes shifts of all jobs, until a shift makes no step, since nothing was due of any actor on
/// what it had seen, or a worker's step is refused. The jobs fit the lines. The shifts come to an
/// end: in each shift but the last some pass sees more entries than before, and no pass can see
/// more than a history of the greatest length. The error is `Full` if a worker stopped at a full
/// line, of several such lines with the lowest; else it is `NoMemory`.
pub fn run_shifts<
    R: Threads + Wait + Sync,
    L: IrqLine + Send + Sync,
    G: Gate + Sync,
    H: SharedHandler + Sync,
>(
    rt: &R,
    lines: &SharedLines<L>,
    jobs: &mut Jobs<'_, L>,
    gate: &G,
    handlers: &H,
) -> Result<(), StepRefused>
    requires { Fit lines.now jobs.old }
    ensures board { jobs.new.board ≡ jobs.old.board }
    ensures fit { Fit lines.now jobs.new }
    ensures end { Ends (terms_of L.seen L.may_want (H.gave handlers.now)) jobs.new result }
    ensures grew { JobsGrow (H.gave handlers.now) jobs.old.jobs jobs.new.jobs }
    ensures firsts { jobs.new.firsts ≡ jobs.old.firsts }
    ensures room { room_of_jobs jobs.new.jobs ≤ room_of_jobs jobs.old.jobs }
{
    let mut size = jobs.size;
    let mut pause = Pause { left: 0, next: 1 };
    loop {
        let used_up = AtomicU64::new(0);
        match jobs.one_shift(rt, lines, size, &used_up, gate, handlers)? {
            Work::Idle => return Ok(()),
            Work::Busy => {}
        }
        let all = jobs.jobs.len();
        let paid = pays(used_up.load(Ordering::SeqCst), all.div_ceil(size.max(1)));
        size = next_size(size, jobs.size, all, paid, pause.left > 0);
        pause = next_pause(pause, paid);
    }
}

/// For how many shifts no more threads are tried.
#[derive(Clone, Copy)]
struct Pause {
    /// So many are left.
    left: u32,
    /// So many come after the next shift that doesn't pay.
    next: u32,
}

/// Whether this many threads are worth their cost in a shift, if `used_up` of them used their part
/// up: at least half did, and two. The others soon waited for steps of another thread.
fn pays(used_up: u64, threads: usize) -> bool {
    threads <= 1 || (used_up > 1 && used_up.saturating_mul(2) >= threads as u64)
}

/// How many jobs share a thread in the next shift, if `size` did in this one: at least `least`, and
/// at most all. If this shift didn't pay, half as many threads lose less time. If it did, twice as
/// many are tried, unless such tries pause. Jobs that have a thread each keep it.
fn next_size(size: usize, least: usize, all: usize, paid: bool, pauses: bool) -> usize {
    if least <= 1 {
        return least;
    }
    if !paid {
        return size.saturating_mul(2).min(all);
    }
    if pauses {
        return size;
    }
    (size / 2).max(least)
}

/// After a shift that doesn't pay more threads are tried again only after a pause, and each pause
/// is twice as long as the one before. So actors that wait for one another pay for few tries.
fn next_pause(pause: Pause, paid: bool) -> Pause {
    if paid {
        return Pause {
            left: pause.left.saturating_sub(1),
            next: pause.next,
        };
    }
    Pause {
        left: pause.next,
        next: pause.next.saturating_mul(2),
    }
}

/// One shift: each `size` jobs are worked on in a thread of their own, if it can be made.
fn shift<
    R: Threads + Wait + Sync,
    L: IrqLine + Send + Sync,
    G: Gate + Sync,
    H: SharedHandler + Sync,
>(
    rt: &R,
    board: &Board,
    lines: &SharedLines<L>,
    size: usize,
    jobs: &mut [Job<L>],
    used_up: &AtomicU64,
    gate: &G,
    handlers: &H,
)
    requires boards { AreBoards board.now lines.now }
    requires jobs { All (IsJob board.now lines.now) jobs.old }
    ensures { KeepsJobs (terms_of L.seen L.may_want (H.gave handlers.now))
        board.now lines.now jobs.old jobs.new }
{
    thread::for_each_chunk_mut(
        rt,
        jobs,
        size.max(1),
        &|_, part| work_on(rt, board, lines, part, used_up, gate, handlers),
    );
}

impl<'b, L: IrqLine + Send + Sync> Jobs<'b, L> {
    /// One shift of all jobs, and how their parts of it ended.
    fn one_shift<R: Threads + Wait + Sync, G: Gate + Sync, H: SharedHandler + Sync>(
        &mut self,
        rt: &R,
        lines: &SharedLines<L>,
        size: usize,
        used_up: &AtomicU64,
        gate: &G,
        handlers: &H,
    ) -> Result<Work, StepRefused>
        requires { Fit lines.now self.old }
        ensures board { self.new.board ≡ self.old.board }
        ensures fit { Fit lines.now self.new }
        ensures ends { EachEndedSo (terms_of L.seen L.may_want (H.gave handlers.now)) self.new }
        ensures all { SumsUp self.new.jobs (length self.new.jobs) result }
        ensures grew { JobsGrow (H.gave handlers.now) self.old.jobs self.new.jobs }
        ensures firsts { self.new.firsts ≡ self.old.firsts }
        ensures idle { result ≡ Ok works.Idle → MadeNone self.old.jobs self.new.jobs }
        ensures room { room_of_jobs self.new.jobs ≤ room_of_jobs self.old.jobs }
        ensures busy { result ≡ Ok works.Busy
            → room_of_jobs self.new.jobs < room_of_jobs self.old.jobs }
    {
        let jobs = self.jobs.as_mut_slice();
        shift(rt, self.board, lines, size, jobs, used_up, gate, handlers);
        end_of_all(self.jobs.as_slice())
    }
}

/// How the workers' parts of a shift ended, as one answer: a full line comes first, the lowest of
/// several; then that memory was refused; then that a step was made; then that none was.
fn end_of_all<L: IrqLine>(jobs: &[Job<L>]) -> Result<Work, StepRefused>
    ensures { SumsUp jobs.now (length jobs.now) result }
{
    let mut all = Ok(Work::Idle);
    for i in 0..jobs.len() {
        let job = &jobs[i];
        all = worse(all, job.end);
    }
    all
}

/// Of two ends the one that comes first in the order of `end_of_all`.
pub(crate) fn worse(
    first: Result<Work, StepRefused>,
    second: Result<Work, StepRefused>,
) -> Result<Work, StepRefused>
    ensures { result ≡ worse first second }
{
    match (first, second) {
        (Err(a), Err(b)) => Err(worse_refusal(a, b)),
        (Err(_), Ok(_)) => first,
        (Ok(_), Err(_)) => second,
        (Ok(Work::Busy), Ok(_)) => first,
        (Ok(Work::Idle), Ok(_)) => second,
    }
}

/// Of two refusals the one that comes first in the order of `end_of_all`.
fn worse_refusal(first: StepRefused, second: StepRefused) -> StepRefused
    ensures { result ≡ worse_refusal first second }
{
    let StepRefused::Full { line: a, .. } = first else {
        return second;
    };
    match second {
        StepRefused::Full { line: b, .. } if b.0 < a.0 => second,
        StepRefused::Full { .. } | StepRefused::NoMemory => first,
    }
}
