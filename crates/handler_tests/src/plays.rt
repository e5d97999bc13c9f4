//! A play calls the caller's handlers, once for each run; and what isn't a step is refused memory
//! before the first step, so none was called: `rt try --test --fail-alloc N` refuses the Nth.
ghost use Rattle.std.specs.Prelude.{◌≡◌, ◌+◌, ◌-◌, ◌^◌, min};
ghost use Rattle.handler_tests.specs.Counts.{count_of};

use board_core::PlayEnd;
use board_lines::MakesChainLine;
use board_text::read_board;
use callbacks::{ByKind, Handler};
use irq_base::{Answer, NoMemory, Part, Run};
use irq_io::MemSink;
use irq_line::StepRefused;
use irq_play::play_and_print;
use play_report::PlayFailed;
use std::alloc::Global;
use std::test::Fail;

/// The device's handler is called once, and its thread's function once. There are no picks, so the
/// system settles by itself.
const SETTLED: &[u8] = b"board 1
domain a linear 1 latch
line 1 a 0
device 1 1 check
driver 1
request 1
ask 1
";

/// The same, with a pick for each entry up to the thread's return: these are turns.
const PICKED: &[u8] = b"board 1
domain a linear 1 latch
line 1 a 0
device 1 1 check
driver 1
request 1
ask 1
picks d1*2 c0*3 t1*2
";

/// What the calls of a play add up to.
const ALL: u64 = 11;

/// What a call of the handler counts, and what one of the thread's function.
fn count_of(part: Part) -> u64
    ensures { result ≡ count_of part }
{
    match part {
        Part::Primary => 1,
        Part::Thread => 10,
    }
}

/// Handlers that answer by their devices' kinds, and add up their calls.
#[derive(Clone, Copy)]
struct Counting {
    calls: u64,
}

impl Handler for Counting {
    ghost hears = { λ old run new. new.calls ≡ min (old.calls + count_of run.part) (2 ^ 64 - 1) };

    fn answer(&mut self, run: Run) -> Answer {
        self.calls = self.calls.saturating_add(count_of(run.part));
        ByKind.answer(run)
    }
}

/// Whether the calls in a play of the board add up to what its end says of them.
fn adds_up(alloc: Global, text: &[u8]) -> Result<bool, NoMemory> {
    let mut handlers = Counting { calls: 0 };
    let Ok(board) = read_board(alloc, text) else {
        return Err(NoMemory);
    };
    let mut out = MemSink::new(alloc, &[], 1000)?;
    let played = play_and_print(
        alloc,
        &board,
        false,
        &MakesChainLine,
        &mut handlers,
        &mut out,
    );
    let all = handlers.calls;
    Ok(match played.end {
        Ok(PlayEnd::Settled) => all == ALL,
        Err(PlayFailed::NoMemory) => all == 0,
        Err(PlayFailed::Step(StepRefused::NoMemory)) => all < ALL,
        Ok(PlayEnd::Hung { .. }) | Err(_) => false,
    })
}

#[test]
fn each_run_is_one_call(rt: HostRuntime) -> Result<(), Fail> {
    assert!(rt; adds_up(rt.alloc(), SETTLED)? && adds_up(rt.alloc(), PICKED)?);
    Ok(())
}
