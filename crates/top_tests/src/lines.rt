//! What a single line answers where it adds nothing: nothing is due; its log is full; it lacks the
//! answer of a run, when nothing was said before, or what was said was of another run.
use board_text::read_board;
use callbacks::{Before, ByKind, Said};
use irq_base::{
    Actor, CpuNo, DevNo, DeviceDef, DriverNo, Kind, LineDef, LineNo, NoMemory, Part, Run,
};
use irq_line::{IrqLine, MakesLine, StepRefused, Stepped};
use line_core::MakesCellLine;
use line_valid::is_valid;
use std::alloc::Global;
use std::test::Fail;

const BOARD: &str = "board 1
log 6
domain intc linear 4 latch
line 1 intc 2
device 1 1 check
driver 1
request 1
ask 1
free 1
";

const CPU: Actor = Actor::Cpu(CpuNo(0));

const DRIVER: Actor = Actor::Driver(DriverNo(1));

const THREAD: Actor = Actor::Thread(DevNo(1));

const DEVICE: DeviceDef = DeviceDef {
    dev: DevNo(1),
    line: LineNo(1),
    kind: Kind::Check,
    held: false,
    forgets: false,
};

/// What a step should answer.
#[derive(Clone, Copy, PartialEq, Eq)]
enum Wanted {
    NotYet,
    Adds,
    /// The line lacks the primary handler's answer, with one unserved ask: first when nothing was
    /// said, then when the answer is that of a run with no unserved ask. With the right answer it
    /// adds an entry.
    Runs,
    Full,
}

/// The steps, in their order.
const STEPS: [(Actor, Wanted); 12] = [
    (CPU, Wanted::NotYet),
    (THREAD, Wanted::NotYet),
    (DRIVER, Wanted::Adds),
    (DRIVER, Wanted::Adds),
    (CPU, Wanted::Adds),
    (CPU, Wanted::Adds),
    (CPU, Wanted::Runs),
    (THREAD, Wanted::Adds),
    (CPU, Wanted::Full),
    (DRIVER, Wanted::Full),
    (THREAD, Wanted::Full),
    (Actor::Driver(DriverNo(2)), Wanted::NotYet),
];

/// The run of the device's handler with `unserved` unserved asks.
fn run(unserved: u32) -> Run {
    Run {
        def: DEVICE,
        part: Part::Primary,
        unserved,
        told: None,
    }
}

/// The handler's answer in that run, said before.
fn said(unserved: u32) -> Before {
    Before {
        said: Some(Said::of(&ByKind, run(unserved))),
    }
}

/// Whether the line lacks the answer of the primary's run.
fn lacks<L: IrqLine>(line: &mut L, mut before: Before) -> bool {
    match line.step(CPU, &mut before) {
        Ok(Stepped::Lacks(lack)) => lack == run(1),
        _ => false,
    }
}

/// Whether the step answers what is wanted.
fn comes_to<L: IrqLine>(line: &mut L, actor: Actor, wanted: Wanted) -> bool {
    let mut before = if wanted == Wanted::Runs {
        if !lacks(line, Before { said: None }) || !lacks(line, said(0)) {
            return false;
        }
        said(1)
    } else {
        Before { said: None }
    };
    match line.step(actor, &mut before) {
        Ok(Stepped::Added(_)) => wanted == Wanted::Adds || wanted == Wanted::Runs,
        Ok(Stepped::NotYet) => wanted == Wanted::NotYet,
        Err(StepRefused::Full { line, len }) => {
            wanted == Wanted::Full && line == LineNo(1) && len == 6
        }
        _ => false,
    }
}

/// The number of the first step, of a line of the definition, that answers something else.
fn first_wrong(alloc: Global, def: &LineDef) -> Result<Option<u32>, NoMemory> {
    if !is_valid(def) {
        return Ok(Some(0));
    }
    let mut line = MakesCellLine.make(alloc, 1, def)?;
    for (number, (actor, wanted)) in (1u32..).zip(STEPS) {
        if !comes_to(&mut line, actor, wanted) {
            return Ok(Some(number));
        }
    }
    Ok(None)
}

#[test]
fn steps_that_add_nothing(rt: HostRuntime) -> Result<(), Fail> {
    let defs = read_board(rt.alloc(), BOARD.as_bytes())?.line_defs(rt.alloc())?;
    let [def] = defs.as_slice() else {
        return Err(NoMemory.into());
    };
    assert!(rt; first_wrong(rt.alloc(), def)?.is_none());
    Ok(())
}
