//! The top call over the arguments as they come.
ghost use Rattle.std.specs.Prelude.{◌≡◌};
ghost use Rattle.callbacks.specs.Heard.{Heard};
ghost use Rattle.notifiers.specs.Told.{Told};
ghost use Rattle.irq_words.specs.Words.{Asks};
ghost use Rattle.program_io.specs.Arguments.{IsForm, IsNotText};
ghost use Rattle.program_io.specs.Streams.{KeepsStreams};
ghost use Rattle.irq_top.specs.Commands.{DoesAsked};
ghost use Rattle.irq_top.specs.Ending.{end_seen};

use crate::ending::Ending;
use crate::outcome::Outcome;
use crate::top::{end_early, irq_main};
use callbacks::{Handler, SharedHandler};
use irq_base::NoMemory;
use irq_io::{Sink, Source};
use line_makers::MakesDomainLine;
use notifiers::Notifier;
use program_io::{ArgumentsRefused, lend, words_of};
use std::alloc::Global;
use std::env::Args;
use std::io;
use std::sync::Wait;
use std::thread::Threads;
use workers::NoGate;

/// Does what the arguments say: reads `src`, prints to `out`, and says on `err` what went wrong.
/// No gate holds a worker, and the maker makes the lines. Unless memory is refused, arguments that
/// are no command's words end as a fault of usage; so do arguments that aren't all UTF-8.
pub fn command<
    R: Threads + Wait + Sync,
    S: Source,
    O: Sink,
    E: Sink,
    H: Handler,
    D: SharedHandler + Sync,
    M: MakesDomainLine,
    N: Notifier,
>(
    rt: &R,
    alloc: Global,
    args: io::Result<Args>,
    src: &mut S,
    out: &mut O,
    err: &mut E,
    handlers: &mut H,
    shared: &D,
    maker: &M,
    notify: &mut N,
) -> Outcome
where
    M::Line: Send + Sync,
    ensures not_text { IsNotText args → result.ending ≡ Ending.Usage }
    ensures does { DoesAsked (λ runs. Heard H.hears runs handlers.old handlers.new)
        (D.gave shared.now) (λ placings. Told N.tells placings notify.old notify.new)
        M.Line.may_want (src.new ≡ src.old) (IsForm Asks args) (S.left src.old) (S.left src.new)
        result.reports.reports (O.written out.old) (O.written out.new) result.ending }
    ensures keeps { KeepsStreams (end_seen result.ending) S.faults src.old src.new O.kept O.faults
        out.old out.new E.written E.kept E.faults err.old err.new }
{
    match words_of(alloc, args) {
        Ok(words) => match lend(alloc, words.as_slice()) {
            Ok(lent) => {
                let words = lent.as_slice();
                irq_main(
                    rt, alloc, words, src, out, err, &NoGate, handlers, shared, maker, notify,
                )
            }
            Err(NoMemory) => end_early(alloc, Ending::NoMemory, err),
        },
        Err(ArgumentsRefused::NotText) => end_early(alloc, Ending::Usage, err),
        Err(ArgumentsRefused::NoMemory) => end_early(alloc, Ending::NoMemory, err),
    }
}
