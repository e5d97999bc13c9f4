//! The top call over the arguments as they come.
ghost use Rattle.std.specs.Prelude.{◌≡◌};
ghost use Rattle.callbacks.specs.Heard.{Heard};
ghost use Rattle.explore_words.specs.Words.{Asks};
ghost use Rattle.program_io.specs.Arguments.{IsForm, IsNotText};
ghost use Rattle.program_io.specs.ErrorRows.{Tells};
ghost use Rattle.program_io.specs.Streams.{KeepsStreams};
ghost use Rattle.explore_top.specs.Does.{DoesAsked};
ghost use Rattle.explore_top.specs.Ending.{end_seen, error_text};

use crate::ending::Ending;
use crate::top::{end_early, explore_main};
use callbacks::Handler;
use irq_base::NoMemory;
use irq_io::{Sink, Source};
use line_makers::MakesDomainLine;
use program_io::{ArgumentsRefused, lend, words_of};
use std::alloc::Global;
use std::env::Args;
use std::io;

/// Does what the arguments say: reads `src`, prints to `out`, and says on `err` what went wrong.
/// The maker makes the lines that are played, and these handlers are called for the runs that a
/// play ends.
/// Unless memory is refused, arguments that ask for nothing end as a fault of usage; so do
/// arguments that aren't all UTF-8.
pub fn command<S: Source, O: Sink, E: Sink, M: MakesDomainLine, H: Handler>(
    alloc: Global,
    args: io::Result<Args>,
    src: &mut S,
    out: &mut O,
    err: &mut E,
    maker: &M,
    handlers: &mut H,
) -> Ending
    ensures not_text { IsNotText args → result ≡ Ending.Usage }
    ensures does { DoesAsked (IsForm Asks args)
        (λ runs. Heard H.hears runs handlers.old handlers.new) (src.new ≡ src.old)
        (handlers.new ≡ handlers.old) (S.left src.old) (S.left src.new) (O.written out.old)
        (O.written out.new) result }
    ensures keeps { KeepsStreams (end_seen result) S.faults src.old src.new O.kept O.faults
        out.old out.new E.written E.kept E.faults err.old err.new }
{
    match words_of(alloc, args) {
        Ok(words) => match lend(alloc, words.as_slice()) {
            Ok(lent) => explore_main(alloc, lent.as_slice(), src, out, err, maker, handlers),
            Err(NoMemory) => ended(Ending::NoMemory, err),
        },
        Err(ArgumentsRefused::NotText) => ended(Ending::Usage, err),
        Err(ArgumentsRefused::NoMemory) => ended(Ending::NoMemory, err),
    }
}

/// An ending before anything was read, which is said on `err`.
pub(crate) fn ended<E: Sink>(ending: Ending, err: &mut E) -> Ending
    ensures ending { result ≡ ending }
    ensures tells { Tells (error_text ending) (E.written err.old) (E.written err.new)
        (E.kept err.new) (E.faults err.old) (E.faults err.new) }
{
    end_early(ending, err);
    ending
}
