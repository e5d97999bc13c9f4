//! The body of `main`.
ghost use Rattle.std.specs.Prelude.{◌≡◌, None, IsSome};
ghost use Rattle.callbacks.specs.Heard.{Heard};
ghost use Rattle.notifiers.specs.Told.{Told};
ghost use Rattle.irq_words.specs.Words.{Asks};
ghost use Rattle.program_io.specs.Arguments.{IsForm, IsNotText};
ghost use Rattle.program_io.specs.Streams.{KeepsStdStreams, written_after};
ghost use Rattle.irq_top.specs.Commands.{DoesAsked};
ghost use Rattle.irq_top.specs.Ending.{end_seen, status_of};

use crate::arguments::command;
use crate::ending::Ending;
use crate::outcome::Outcome;
use crate::top::end_early;
use callbacks::{Handler, SharedHandler};
use irq_base::NoMemory;
use irq_io::StdSource;
use line_makers::MakesDomainLine;
use notifiers::Notifier;
use program_io::{Ended, with_buffer, without_buffer};
use std::alloc::Global;
use std::env::Args;
use std::io::{self, Read, Write};
use std::sync::Wait;
use std::thread::Threads;

/// Runs the program over its arguments as they come, its input, its output and its error stream.
/// The output gets a buffer. If the status is 0, 1 or 9, nothing is kept back there, and the writer
/// has all of the output. The maker makes the lines that are played, run and checked; `handlers`
/// are called by what is played, `shared` by the threads of `run`.
pub fn run<
    T: Threads + Wait + Sync,
    R: Read + Drop,
    O: Write + Drop,
    E: Write + Drop,
    H: Handler,
    D: SharedHandler + Sync,
    M: MakesDomainLine,
    N: Notifier,
>(
    rt: &T,
    alloc: Global,
    args: io::Result<Args>,
    input: R,
    output: O,
    error: E,
    handlers: &mut H,
    shared: &D,
    maker: &M,
    notify: &mut N,
) -> Ended<Outcome, R, O, E>
where
    M::Line: Send + Sync,
    ensures status { result.status ≡ status_of result.end.ending }
    ensures buffer { result.output ≡ None → result.end.ending ≡ Ending.NoMemory }
    ensures not_text { IsNotText args → IsSome result.output → result.end.ending ≡ Ending.Usage }
    ensures does { DoesAsked (λ runs. Heard H.hears runs handlers.old handlers.new)
        (D.gave shared.now) (λ placings. Told N.tells placings notify.old notify.new)
        M.Line.may_want (result.input.reader ≡ input) (IsForm Asks args) (R.remaining input)
        (R.remaining result.input.reader) result.end.reports.reports (O.contents output)
        (written_after O.contents output result.output) result.end.ending }
    ensures keeps { KeepsStdStreams (end_seen result.end.ending) result.input.faults O.contents
        output result.output E.contents error result.error }
{
    let mut input = StdSource::new(input);
    let mut error = without_buffer(alloc, error);
    match with_buffer(alloc, output) {
        Ok(mut output) => {
            let (src, out, err) = (&mut input, &mut output, &mut error);
            let end = command(
                rt, alloc, args, src, out, err, handlers, shared, maker, notify,
            );
            Ended {
                status: end.ending.status(),
                end,
                input,
                output: Some(output),
                error,
            }
        }
        Err(NoMemory) => Ended {
            status: Ending::NoMemory.status(),
            end: end_early(alloc, Ending::NoMemory, &mut error),
            input,
            output: None,
            error,
        },
    }
}
