//! The drivers by the lines of their current calls, and by what those wait for.
ghost use Rattle.std.specs.Prelude.{◌≡◌, ℕ, ◌<◌, ◌==◌, ◌&&◌, ◌||◌, not, false, if◌then◌else◌};
ghost use Rattle.board_ready.specs.Sets.{has, is_on, is_wait, is_waiting, on_line, word_for};
ghost use Rattle.board_ready.specs.Sets.{may_go_on};
ghost use Rattle.irq_base.specs.declared.waiting.WaitFor.{WaitFor};

use crate::bits::with_bit;
use crate::parts::CurrentCall;
use irq_base::{Blocks, WaitFor};
use std::marker::Model;

/// How many lines it has room for.
const LINES: usize = 64;

/// For each thing that calls wait for, the drivers that wait for it: a bit for each driver.
#[derive(Clone, Copy)]
pub struct Waiting {
    pub nothing: u64,
    pub flow: u64,
    pub threads: u64,
    pub mutex: u64,
    pub freed: u64,
}

/// For each of 64 lines, the drivers whose current calls are on it, and for each thing, the drivers
/// whose calls wait for it. A bit stands for a driver.
#[derive(Drop)]
pub struct CallSets {
    lines: [u64; 64],
    waiting: Waiting,
}

impl Model for CallSets {
    ghost use Rattle.board_ready.specs.Sets.{CallsSeen};

    ghost Value = { CallsSeen };

    ghost view = { λ s. record { lines = s.lines; waiting = s.waiting } };
}

impl CallSets {
    /// No driver has a call.
    pub fn new() -> CallSets
        ensures lines { (k r : ℕ) → has (on_line result k) r ≡ false }
        ensures waiting { (w : WaitFor) (r : ℕ) → has (word_for w result.waiting) r ≡ false }
    {
        CallSets {
            lines: [0; 64],
            waiting: Waiting {
                nothing: 0,
                flow: 0,
                threads: 0,
                mutex: 0,
                freed: 0,
            },
        }
    }

    /// Puts the driver into the sets of its call, or takes it out of them, as `to` says.
    pub fn put(&mut self, driver: usize, call: Option<CurrentCall>, to: bool)
        requires { driver < 64 }
        ensures lines { (k r : ℕ) → k < 64 → r < 64
            → has (on_line self.new k) r
            ≡ (if is_on k call && (r == driver) then to else has (on_line self.old k) r) }
        ensures waiting { (w : WaitFor) (r : ℕ) → r < 64
            → has (word_for w self.new.waiting) r
            ≡ (if is_waiting w call && (r == driver) then to
            else has (word_for w self.old.waiting) r) }
    {
        if let Some(call) = call {
            if call.line < LINES {
                self.lines[call.line] = with_bit(self.lines[call.line], driver, to);
            }
            self.waiting = moved(self.waiting, call.wait, driver, to);
        }
    }

    /// The drivers whose current calls are on the line.
    pub fn on_line(&self, line: usize) -> u64
        requires { line < 64 }
        ensures { result ≡ on_line self.now line }
    {
        self.lines[line]
    }

    /// The drivers whose calls wait for nothing that stands in the way.
    pub fn open(&self, blocks: Blocks) -> u64
        ensures { (r : ℕ) → has result r ≡ may_go_on blocks self.now.waiting r }
    {
        let waiting = self.waiting;
        let flow = unless(blocks.flow, waiting.flow);
        let threads = unless(blocks.threads, waiting.threads);
        let mutex = unless(blocks.mutex, waiting.mutex);
        let freed = unless(blocks.freed, waiting.freed);
        waiting.nothing | flow | threads | mutex | freed
    }
}

/// The word, or the empty one if it is barred.
fn unless(barred: bool, word: u64) -> u64
    ensures { (i : ℕ) → has result i ≡ (has word i && not barred) }
{
    if barred { 0 } else { word }
}

/// `waiting` with the driver put in among those that wait for `wait`, or taken out.
fn moved(waiting: Waiting, wait: WaitFor, driver: usize, to: bool) -> Waiting
    requires { driver < 64 }
    ensures { (w : WaitFor) (r : ℕ) → r < 64
        → has (word_for w result) r
        ≡ (if is_wait w wait && (r == driver) then to else has (word_for w waiting) r) }
{
    let mut waiting = waiting;
    match wait {
        WaitFor::Nothing => waiting.nothing = with_bit(waiting.nothing, driver, to),
        WaitFor::Flow => waiting.flow = with_bit(waiting.flow, driver, to),
        WaitFor::Threads => waiting.threads = with_bit(waiting.threads, driver, to),
        WaitFor::Mutex => waiting.mutex = with_bit(waiting.mutex, driver, to),
        WaitFor::Freed => waiting.freed = with_bit(waiting.freed, driver, to),
    }
    waiting
}
