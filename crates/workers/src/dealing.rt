//! Which jobs share a thread.
ghost use Rattle.std.specs.Prelude.{◌≡◌, ◌<◌, IfOk, IsPermutation, length};

use crate::drivers::next_call;
use crate::lines::SharedLines;
use board_def::Board;
use irq_base::{Actor, LineNo, NoMemory};
use irq_line::IrqLine;
use std::alloc::Global;
use std::thread::{self, Threads};

/// So many jobs have a thread each. Of more, several share a thread.
const APART: usize = 64;

/// How many of `jobs` jobs share a thread: up to 64 jobs have one each; more are dealt to as many
/// threads as there are processors to run them.
pub(crate) fn jobs_a_thread<R: Threads>(rt: &R, jobs: usize) -> usize
    ensures { 0 < result }
{
    if jobs <= APART {
        return 1;
    }
    let threads = match thread::available_parallelism(rt) {
        Ok(processors) => processors.get(),
        Err(_) => 1,
    };
    jobs.div_ceil(threads.min(APART).max(1)).max(1)
}

/// Deals the actors to threads. Those that wait for one another at each step are neighbours in what
/// is dealt: each processor stands with the threads of the lines that aim at it first, and with the
/// drivers whose first call is about one of these.
pub(crate) fn deal<L: IrqLine>(
    alloc: Global,
    board: &Board,
    lines: &SharedLines<L>,
    crew: &[Actor],
) -> Result<Vec<Actor>, NoMemory>
    ensures { IfOk result (λ dealt. IsPermutation crew.now dealt.items) }
{
    let mut hands = Vec::new(alloc);
    for i in 0..crew.len() {
        hands.push((home_of(board, lines, crew[i]), crew[i]))?;
    }
    hands.sort_unstable_by_key(|card| card.0);
    let mut dealt = Vec::new(alloc);
    for i in 0..hands.len() {
        dealt.push(hands[i].1)?;
    }
    Ok(dealt)
}

/// The processor that the actor is likely to wait for: a processor is itself; for a device's thread
/// it is the lowest in the mask of the device's line, for a driver in that of its first call's.
fn home_of<L: IrqLine>(board: &Board, lines: &SharedLines<L>, actor: Actor) -> u32 {
    match actor {
        Actor::Cpu(cpu) => cpu.0,
        Actor::Thread(dev) => match board.find_device(dev) {
            Some(device) => lowest_of(board, device.line),
            None => 0,
        },
        Actor::Driver(driver) => match board.call(next_call(board.calls(), lines, driver, 0)) {
            Some(call) => lowest_of(board, call.line),
            None => 0,
        },
    }
}

/// The lowest processor in the line's mask; 0 if there is none.
fn lowest_of(board: &Board, line: LineNo) -> u32 {
    match board.find_line(line) {
        Some(row) => row.mask.trailing_zeros(),
        None => 0,
    }
}
