//! The top call.
ghost use Rattle.std.specs.Prelude.{◌≡◌, ◌↔◌, [], map};
ghost use Rattle.callbacks.specs.Heard.{Heard};
ghost use Rattle.notifiers.specs.Told.{Told};
ghost use Rattle.irq_words.specs.Words.{Asks, AsksNothing};
ghost use Rattle.irq_words.specs.declared.Command.{Command};
ghost use Rattle.program_io.specs.ErrorRows.{Tells};
ghost use Rattle.program_io.specs.Streams.{KeepsStreams};
ghost use Rattle.irq_top.specs.Commands.{Does, ReadsNothing, TellsWanted};
ghost use Rattle.irq_top.specs.Ending.{end_seen, error_text, is_quiet};

use crate::commands::act;
use crate::ending::Ending;
use crate::error_rows::error_row;
use crate::outcome::Outcome;
use callbacks::{Handler, SharedHandler};
use irq_io::{Sink, Source};
use irq_words::read_command;
use line_makers::MakesDomainLine;
use notifiers::Notifier;
use program_io::tell_row;
use std::alloc::Global;
use std::sync::Wait;
use std::thread::Threads;
use text_row::TextRow;
use workers::Gate;

/// Does what the words ask for: `run` reads a board from `src`, runs it by threads with the
/// handlers, and prints its log to `out`, line by line, or with `--summary` one row for each line;
/// `play` plays it by the stated order, and prints its log as it was played, or a summary;
/// `chained` plays it behind one demultiplexer, and prints the log with enters and exits; `hotplug`
/// places its lines on processors that go offline and come online, tells each placing to the
/// notifier, and plays it with the moves; `sleep` plays it with a sleep from which the armed lines
/// wake it; `check` reads a board and a log of it, and prints the judgement of the log; `gen N`
/// makes a board, plays it, and prints its summary.
///
/// What is played calls `handlers`, once for each run that the log shows and for no other; `run`
/// calls `shared`, from all its threads.
///
/// `run` alone waits, and passes the gate before each attempt of a worker: the other commands are
/// done by functions that don't wait, and so return. Other words are refused before anything is
/// read. The maker makes the lines that are played, run and checked. What went wrong is told on
/// `err`, in one row; a fault of `err` itself changes nothing.
pub fn irq_main<
    R: Threads + Wait + Sync,
    S: Source,
    O: Sink,
    E: Sink,
    G: Gate + Sync,
    H: Handler,
    D: SharedHandler + Sync,
    M: MakesDomainLine,
    N: Notifier,
>(
    rt: &R,
    alloc: Global,
    words: &[&str],
    src: &mut S,
    out: &mut O,
    err: &mut E,
    gate: &G,
    handlers: &mut H,
    shared: &D,
    maker: &M,
    notify: &mut N,
) -> Outcome
where
    M::Line: Send + Sync,
    ensures usage { (result.ending ≡ Ending.Usage) ↔ AsksNothing (map (λ w. w.now) words.now) }
    ensures unasked { result.ending ≡ Ending.Usage → result.reports.reports ≡ [] }
    ensures uncalled { result.ending ≡ Ending.Usage
        → (Heard H.hears [] handlers.old handlers.new) × Told N.tells [] notify.old notify.new }
    ensures unread { ReadsNothing (map (λ w. w.now) words.now) → src.new ≡ src.old }
    ensures does { (asked : Command) → Asks (map (λ w. w.now) words.now) asked
        → Does (λ runs. Heard H.hears runs handlers.old handlers.new) (D.gave shared.now)
        (λ placings. Told N.tells placings notify.old notify.new) asked (S.left src.old)
        (S.left src.new) result.reports.reports (O.written out.old) (O.written out.new)
        result.ending }
    ensures wanted { (asked : Command) → Asks (map (λ w. w.now) words.now) asked
        → TellsWanted M.Line.may_want asked (S.left src.old) result.reports.reports result.ending }
    ensures keeps { KeepsStreams (end_seen result.ending) S.faults src.old src.new O.kept O.faults
        out.old out.new E.written E.kept E.faults err.old err.new }
{
    let Some(asked) = read_command(words) else {
        return end_early(alloc, Ending::Usage, err);
    };
    let outcome = act(
        rt, alloc, asked, src, out, gate, handlers, shared, maker, notify,
    );
    if !is_quiet(outcome.ending) {
        tell(err, outcome.ending);
    }
    outcome
}

/// Whether the ending has no row on the error sink.
fn is_quiet(ending: Ending) -> bool
    ensures { result ≡ is_quiet ending }
{
    matches!(
        ending,
        Ending::Done | Ending::Unlawful { .. } | Ending::Malformed { .. }
    )
}

/// An ending before anything was read or played, which is said on `err`.
pub fn end_early<E: Sink>(alloc: Global, ending: Ending, err: &mut E) -> Outcome
    ensures ending { result.ending ≡ ending }
    ensures reports { result.reports.reports ≡ [] }
    ensures tells { Tells (error_text ending) (E.written err.old) (E.written err.new)
        (E.kept err.new) (E.faults err.old) (E.faults err.new) }
{
    tell(err, ending);
    Outcome::without_reports(alloc, ending)
}

/// Says on the error sink how the call ended.
fn tell<E: Sink>(err: &mut E, ending: Ending)
    ensures { Tells (error_text ending) (E.written err.old) (E.written err.new)
        (E.kept err.new) (E.faults err.old) (E.faults err.new) }
{
    let mut row = TextRow::new();
    error_row(&mut row, ending);
    tell_row(err, row.bytes());
}
