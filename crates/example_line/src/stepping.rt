//! Ten steps of a line.
ghost use Rattle.std.specs.Prelude.{◌≡◌, [], length};
ghost use Rattle.callbacks.specs.Heard.{Heard};
ghost use Rattle.example_line.specs.Runs.{runs_on};

use crate::counting::Counting;
use crate::describing::said;
use callbacks::Handler;
use irq_base::{Actor, CpuNo, DriverNo};
use irq_line::{IrqLine, StepRefused, Stepped};

const DRIVER: Actor = Actor::Driver(DriverNo(1));

const CPU: Actor = Actor::Cpu(CpuNo(0));

/// Who makes each step.
const STEPS: [Actor; 10] = [DRIVER, CPU, DRIVER, CPU, CPU, CPU, DRIVER, CPU, CPU, CPU];

/// Makes a step of any line, with any handlers, and says what it came to. What was called before
/// and is called now are the runs that have ended on the line.
fn step<L: IrqLine, H: Handler>(line: &mut L, actor: Actor, handlers: &mut H) -> &'static str
    ensures def { (L.seen line.new).def ≡ (L.seen line.old).def }
    ensures heard { (first : H) → Heard H.hears (runs_on (L.seen line.old)) first handlers.old
        → Heard H.hears (runs_on (L.seen line.new)) first handlers.new }
{
    match line.step(actor, handlers) {
        Ok(Stepped::Added(entry)) => said(&entry),
        Ok(Stepped::NotYet) => "nothing is due",
        Err(StepRefused::Full { .. }) => "the log is full",
        Err(StepRefused::NoMemory) => "out of memory",
    }
}

/// Makes the ten steps of a new line, and says what each came to. The handlers are called once for
/// each run that ended on the line, in the order of the line's history, and for nothing else.
fn ten_steps<L: IrqLine, H: Handler>(line: &mut L, handlers: &mut H) -> [&'static str; 10]
    requires { (L.seen line.old).entries ≡ [] }
    ensures { Heard H.hears (runs_on (L.seen line.new)) handlers.old handlers.new }
{
    let mut rows = [""; 10];
    for i in 0..10 {
        rows[i] = step(line, STEPS[i], handlers);
    }
    rows
}

/// Makes the ten steps of a new line with a handler that counts its calls, and puts what each came
/// to into the rows. Answers how often the handler was called: as often as a run ended on the line.
pub fn count_ten_steps<L: IrqLine>(line: &mut L, rows: &mut [&'static str; 10]) -> u64
    requires { (L.seen line.old).entries ≡ [] }
    ensures { result ≡ length (runs_on (L.seen line.new)) }
{
    let mut counting = Counting { calls: 0 };
    *rows = ten_steps(line, &mut counting);
    line.is_sound();
    counting.calls
}
