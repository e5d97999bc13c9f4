//! The body of `main`.
ghost use Rattle.std.specs.Prelude.{◌≡◌, None, IsSome};
ghost use Rattle.callbacks.specs.Heard.{Heard};
ghost use Rattle.explore_words.specs.Words.{Asks};
ghost use Rattle.program_io.specs.Arguments.{IsForm, IsNotText};
ghost use Rattle.program_io.specs.Streams.{KeepsStdStreams, written_after};
ghost use Rattle.explore_top.specs.Does.{DoesAsked};
ghost use Rattle.explore_top.specs.Ending.{end_seen, status_of};

use crate::commands::{command, ended};
use crate::ending::Ending;
use callbacks::Handler;
use irq_base::NoMemory;
use irq_io::StdSource;
use line_makers::MakesDomainLine;
use program_io::{Ended, with_buffer, without_buffer};
use std::alloc::Global;
use std::env::Args;
use std::io::{self, Read, Write};

/// Runs the program over its arguments as they come, its input, its output and its error stream.
/// The output gets a buffer. If the status is 0, 1 or 8, nothing is kept back there, and the writer
/// has all of the output. The maker makes the lines that are played, and these handlers are called
/// for the runs that a play ends.
pub fn run<R: Read + Drop, O: Write + Drop, E: Write + Drop, M: MakesDomainLine, H: Handler>(
    alloc: Global,
    args: io::Result<Args>,
    input: R,
    output: O,
    error: E,
    maker: &M,
    handlers: &mut H,
) -> Ended<Ending, R, O, E>
    ensures status { result.status ≡ status_of result.end }
    ensures buffer { result.output ≡ None → result.end ≡ Ending.NoMemory }
    ensures not_text { IsNotText args → IsSome result.output → result.end ≡ Ending.Usage }
    ensures does { DoesAsked (IsForm Asks args)
        (λ runs. Heard H.hears runs handlers.old handlers.new) (result.input.reader ≡ input)
        (handlers.new ≡ handlers.old) (R.remaining input) (R.remaining result.input.reader)
        (O.contents output) (written_after O.contents output result.output) result.end }
    ensures keeps { KeepsStdStreams (end_seen result.end) result.input.faults O.contents output
        result.output E.contents error result.error }
{
    let mut input = StdSource::new(input);
    let mut error = without_buffer(alloc, error);
    match with_buffer(alloc, output) {
        Ok(mut output) => {
            let end = command(
                alloc,
                args,
                &mut input,
                &mut output,
                &mut error,
                maker,
                handlers,
            );
            Ended {
                status: end.status(),
                end,
                input,
                output: Some(output),
                error,
            }
        }
        Err(NoMemory) => Ended {
            status: Ending::NoMemory.status(),
            end: ended(Ending::NoMemory, &mut error),
            input,
            output: None,
            error,
        },
    }
}
