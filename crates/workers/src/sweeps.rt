//! What a thread does in a shift: it sweeps over its jobs, again and again.
ghost use Rattle.std.specs.Prelude.{◌≡◌, ◌-◌, ◌<◌, ◌≤◌, All, IsFalse};
ghost use Rattle.workers.specs.Fit.{IsJob};
ghost use Rattle.workers.specs.Forks.{AreBoards};
ghost use Rattle.workers.specs.Room.{AreCounted, RoomAfterPart};
ghost use Rattle.workers.specs.Shifts.{GoesOn, GoOnJobs, KeepsJobs, EndIsSo, AttemptsJob};
ghost use Rattle.workers.specs.Shifts.{WorksJob};
ghost use Rattle.workers.specs.Shifts.{WorksOn, with_earlier};
ghost use Rattle.workers.specs.Terms.{terms_of};

use crate::gate::Gate;
use crate::job::{Job, Work};
use crate::lines::SharedLines;
use crate::post::Reach;
use crate::shifts::worse;
use board_def::Board;
use callbacks::SharedHandler;
use irq_base::{Actor, Entry, ThreadEntry};
use irq_line::{IrqLine, StepRefused};
use std::hint::spin_loop;
use std::sync::Wait;
use std::sync::atomic::{AtomicU64, Ordering};

/// In a shift a worker makes at most as many steps as the greatest length of a history divided by
/// this. So a worker that could go on by itself, like a processor that takes a level line again and
/// again until the thread of its device has run, leaves room for the workers that wait for the next
/// shift. Threads are made anew for each shift, so a worker's part should not be small.
const SHARE: u32 = 16;

/// The least that the bound on a worker's steps in a shift can be.
const LEAST: u32 = 16;

/// The most that the bound on a worker's steps in a shift can be, however long histories may grow.
const MOST: u32 = 65_536;

/// How often a thread with one job looks again if it finds nothing, before its part of a shift
/// ends.
const LOOKS: usize = 64;

/// How often a thread with several jobs looks again: less often, since its sweep takes longer.
const LOOKS_OVER_SEVERAL: usize = 2;

impl<L: IrqLine> Job<L> {
    /// One attempt of the actor.
    fn attempt<R: Wait, H: SharedHandler>(
        &mut self,
        rt: &R,
        board: &Board,
        lines: &SharedLines<L>,
        reach: Reach,
        handlers: &H,
    ) -> Result<Option<Entry>, StepRefused>
        requires boards { AreBoards board.now lines.now }
        requires job { IsJob board.now lines.now self.old }
        ensures { AttemptsJob (terms_of L.seen L.may_want (H.gave handlers.now))
            board.now lines.now result self.old self.new }
    {
        match self.actor {
            Actor::Thread(..) => self.try_post(rt, lines, 0, handlers),
            Actor::Cpu(_) => self.attempt_cpu(rt, lines, reach, handlers),
            Actor::Driver(driver) => self.attempt_driver(rt, board, lines, driver, handlers),
        }
    }

    /// One attempt of the actor, once the gate lets it pass.
    fn attempt_at_gate<R: Wait, G: Gate, H: SharedHandler>(
        &mut self,
        rt: &R,
        board: &Board,
        lines: &SharedLines<L>,
        reach: Reach,
        gate: &G,
        handlers: &H,
    ) -> Result<Option<Entry>, StepRefused>
        requires boards { AreBoards board.now lines.now }
        requires job { IsJob board.now lines.now self.old }
        ensures { AttemptsJob (terms_of L.seen L.may_want (H.gave handlers.now))
            board.now lines.now result self.old self.new }
    {
        self.attempts = self.attempts.saturating_add(1);
        gate.pass(self.actor, self.attempts);
        self.attempt(rt, board, lines, reach, handlers)
    }

    /// Steps of the actor, as long as there is something to do, at most `most`.
    fn make_attempts<R: Wait, G: Gate, H: SharedHandler>(
        &mut self,
        rt: &R,
        board: &Board,
        lines: &SharedLines<L>,
        most: u32,
        reach: Reach,
        gate: &G,
        handlers: &H,
    ) -> Result<Work, StepRefused>
        requires boards { AreBoards board.now lines.now }
        requires job { IsJob board.now lines.now self.old }
        requires some { 0 < most }
        requires left { 0 < self.old.left }
        ensures works { WorksOn (terms_of L.seen L.may_want (H.gave handlers.now))
            board.now lines.now self.old self.new }
        ensures end { EndIsSo (terms_of L.seen L.may_want (H.gave handlers.now))
            board.now self.new result }
        ensures room { RoomAfterPart result self.old self.new }
        ensures counted { AreCounted self.old self.new }
    {
        for steps in 0..most {
            match self.attempt_at_gate(rt, board, lines, reach, gate, handlers)? {
                Some(entry) if self.pauses_after(&entry) => return Ok(Work::Busy),
                Some(_) => {}
                None if steps > 0 => return Ok(Work::Busy),
                None => return Ok(Work::Idle),
            }
        }
        Ok(Work::Busy)
    }

    /// Counts a step. Whether the worker makes no more for now: it has made all that it may in this
    /// shift, or its actor is a thread that is done, and waits to be woken.
    fn pauses_after(&mut self, entry: &Entry) -> bool
        ensures counts { self.new ≡ record self.old { left = self.old.left - 1 } }
        ensures goes_on { IsFalse result → 0 < self.new.left }
    {
        self.left = self.left.saturating_sub(1);
        self.left == 0 || matches!(entry, Entry::Thread(_, ThreadEntry::Done))
    }

    /// Lets the worker make so many more steps.
    fn renew(&mut self, left: u32)
        ensures { self.new ≡ record self.old { left = left } }
    {
        self.left = left;
    }

    /// The first that a worker does in a shift, in which it may make `left` steps.
    fn work<R: Wait, G: Gate, H: SharedHandler>(
        &mut self,
        rt: &R,
        board: &Board,
        lines: &SharedLines<L>,
        left: u32,
        most: u32,
        gate: &G,
        handlers: &H,
    )
        requires boards { AreBoards board.now lines.now }
        requires job { IsJob board.now lines.now self.old }
        requires some { 0 < most }
        requires left { (0 < left) × (left ≤ 65536) }
        ensures { WorksJob (terms_of L.seen L.may_want (H.gave handlers.now))
            board.now lines.now self.old self.new }
    {
        self.renew(left);
        self.end = self.make_attempts(rt, board, lines, most, Reach::All, gate, handlers);
    }

    /// What a worker does later in the shift, and how this went. If it made a step before, its
    /// part ends as one with a step, also if there is nothing more to do. A worker whose step was
    /// refused does nothing more, nor does one that has made all the steps that it may.
    fn go_on<R: Wait, G: Gate, H: SharedHandler>(
        &mut self,
        rt: &R,
        board: &Board,
        lines: &SharedLines<L>,
        most: u32,
        reach: Reach,
        gate: &G,
        handlers: &H,
    ) -> Result<Work, StepRefused>
        requires boards { AreBoards board.now lines.now }
        requires job { IsJob board.now lines.now self.old }
        requires some { 0 < most }
        ensures { GoesOn (terms_of L.seen L.may_want (H.gave handlers.now))
            board.now lines.now self.old self.new }
    {
        let before = self.end?;
        if self.left == 0 {
            return Ok(Work::Idle);
        }
        let end = self.make_attempts(rt, board, lines, most, reach, gate, handlers);
        self.end = with_earlier(before, end);
        end
    }
}

/// How a part ended, by how it stood (`before`) and how the attempts after that ended.
fn with_earlier(before: Work, end: Result<Work, StepRefused>) -> Result<Work, StepRefused>
    ensures { result ≡ with_earlier before end }
{
    match end {
        Ok(Work::Idle) => Ok(before),
        _ => end,
    }
}

/// A thread's part of a shift: sweeps over its jobs, as long as one of the workers finds something
/// to do. With several jobs each gets some steps at once. It is counted if a worker used its steps
/// up.
pub(crate) fn work_on<R: Wait, L: IrqLine, G: Gate, H: SharedHandler>(
    rt: &R,
    board: &Board,
    lines: &SharedLines<L>,
    jobs: &mut [Job<L>],
    used_up: &AtomicU64,
    gate: &G,
    handlers: &H,
)
    requires boards { AreBoards board.now lines.now }
    requires jobs { All (IsJob board.now lines.now) jobs.old }
    ensures { KeepsJobs (terms_of L.seen L.may_want (H.gave handlers.now))
        board.now lines.now jobs.old jobs.new }
{
    let most = (board.log() / SHARE).max(LEAST).min(MOST);
    let at_once = if jobs.len() > 1 {
        (most / SHARE).max(LEAST)
    } else {
        1
    };
    sweep_first(rt, board, lines, jobs, most, at_once, gate, handlers);
    for _ in 0..most {
        if look(rt, board, lines, jobs, at_once, gate, handlers) != Ok(Work::Busy) {
            break;
        }
    }
    if has_used_up(jobs) {
        used_up.fetch_add(1, Ordering::SeqCst);
    }
}

/// Whether one of the workers has made all the steps that it may in a shift.
fn has_used_up<L: IrqLine>(jobs: &[Job<L>]) -> bool {
    for i in 0..jobs.len() {
        let job = &jobs[i];
        if job.left == 0 {
            return true;
        }
    }
    false
}

/// Sweeps over the jobs, until a worker finds something to do, or none has for some sweeps. Where
/// there are several jobs, processors look at all lines in the last of these alone: most lines are
/// stepped by another thread, and a look at one that has changed takes its lock.
fn look<R: Wait, L: IrqLine, G: Gate, H: SharedHandler>(
    rt: &R,
    board: &Board,
    lines: &SharedLines<L>,
    jobs: &mut [Job<L>],
    at_once: u32,
    gate: &G,
    handlers: &H,
) -> Result<Work, StepRefused>
    requires boards { AreBoards board.now lines.now }
    requires jobs { All (IsJob board.now lines.now) jobs.old }
    requires some { 0 < at_once }
    ensures { GoOnJobs (terms_of L.seen L.may_want (H.gave handlers.now))
        board.now lines.now jobs.old jobs.new }
{
    let (looks, reach) = if jobs.len() > 1 {
        (LOOKS_OVER_SEVERAL, Reach::Near)
    } else {
        (LOOKS, Reach::All)
    };
    for _ in 0..looks {
        let end = sweep(rt, board, lines, jobs, at_once, reach, gate, handlers);
        if end != Ok(Work::Idle) {
            return end;
        }
        spin_loop();
    }
    sweep(rt, board, lines, jobs, at_once, Reach::All, gate, handlers)
}

/// The shift's first sweep: each worker has its first attempts.
fn sweep_first<R: Wait, L: IrqLine, G: Gate, H: SharedHandler>(
    rt: &R,
    board: &Board,
    lines: &SharedLines<L>,
    jobs: &mut [Job<L>],
    most: u32,
    at_once: u32,
    gate: &G,
    handlers: &H,
)
    requires boards { AreBoards board.now lines.now }
    requires jobs { All (IsJob board.now lines.now) jobs.old }
    requires some { 0 < at_once }
    requires most { (0 < most) × (most ≤ 65536) }
    ensures { KeepsJobs (terms_of L.seen L.may_want (H.gave handlers.now))
        board.now lines.now jobs.old jobs.new }
{
    for i in 0..jobs.len() {
        jobs[i].work(rt, board, lines, most, at_once, gate, handlers);
    }
}

/// A later sweep: each worker has some attempts. Answers the worst of their ends (`worse`).
fn sweep<R: Wait, L: IrqLine, G: Gate, H: SharedHandler>(
    rt: &R,
    board: &Board,
    lines: &SharedLines<L>,
    jobs: &mut [Job<L>],
    at_once: u32,
    reach: Reach,
    gate: &G,
    handlers: &H,
) -> Result<Work, StepRefused>
    requires boards { AreBoards board.now lines.now }
    requires jobs { All (IsJob board.now lines.now) jobs.old }
    requires some { 0 < at_once }
    ensures { GoOnJobs (terms_of L.seen L.may_want (H.gave handlers.now))
        board.now lines.now jobs.old jobs.new }
{
    let mut all = Ok(Work::Idle);
    for i in 0..jobs.len() {
        let end = jobs[i].go_on(rt, board, lines, at_once, reach, gate, handlers);
        all = worse(all, end);
    }
    all
}
