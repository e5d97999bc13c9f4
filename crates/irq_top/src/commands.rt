//! What each command does, apart from the row on the error sink.
ghost use Rattle.std.specs.Prelude.{◌≡◌, ◌≤◌, false, length, true};
ghost use Rattle.callbacks.specs.Heard.{Heard};
ghost use Rattle.hotplug_play.specs.Played.{planned_after};
ghost use Rattle.irq_play.specs.Played.{TellsStep};
ghost use Rattle.irq_run.specs.Ran.{TellsStep as RunTells};
ghost use Rattle.notifiers.specs.Told.{Told};
ghost use Rattle.board_gen.specs.Generated.{generated};
ghost use Rattle.irq_io.specs.Faults.{Counts};
ghost use Rattle.irq_words.specs.Words.{IsInRange};
ghost use Rattle.program_io.specs.Streams.{KeepsOutput};
ghost use Rattle.irq_top.specs.Commands.{CallsNobody, Checks, Does, HotplugsAs, PlaysAs, RunsAs};
ghost use Rattle.irq_top.specs.Commands.{TakesBoard, TellsPlay, TellsTaken, TellsWanted, reads};
ghost use Rattle.irq_top.specs.Ending.{end_seen, is_read_fault_end};

use crate::ending::Ending;
use crate::outcome::Outcome;
use crate::plays::{Chain, Play, Sleep};
use crate::taking::{OnBoard, take_board};
use board_def::Board;
use board_gen::generate;
use board_words::FaultKind;
use callbacks::{Handler, SharedHandler};
use hotplug_play::{NotForHotplug, hotplug_and_print};
use irq_base::NoMemory;
use irq_check::check_and_print;
use irq_hotplug::Event;
use irq_io::{Sink, Source};
use irq_run::run_and_print;
use irq_words::Command;
use line_makers::MakesDomainLine;
use notifiers::Notifier;
use program_io::read_input;
use std::alloc::Global;
use std::sync::Wait;
use std::thread::Threads;
use workers::Gate;

/// Does what is asked.
pub(crate) fn act<
    R: Threads + Wait + Sync,
    S: Source,
    O: Sink,
    G: Gate + Sync,
    H: Handler,
    D: SharedHandler + Sync,
    M: MakesDomainLine,
    N: Notifier,
>(
    rt: &R,
    alloc: Global,
    asked: Command,
    src: &mut S,
    out: &mut O,
    gate: &G,
    handlers: &mut H,
    shared: &D,
    maker: &M,
    notify: &mut N,
) -> Outcome
where
    M::Line: Send + Sync,
    requires { IsInRange asked }
    ensures does { Does (λ runs. Heard H.hears runs handlers.old handlers.new)
        (D.gave shared.now) (λ placings. Told N.tells placings notify.old notify.new) asked
        (S.left src.old) (S.left src.new) result.reports.reports (O.written out.old)
        (O.written out.new) result.ending }
    ensures wanted { TellsWanted M.Line.may_want asked (S.left src.old) result.reports.reports
        result.ending }
    ensures unread { reads asked ≡ false → src.new ≡ src.old }
    ensures read_fault { Counts (S.faults src.old) (S.faults src.new)
        (is_read_fault_end result.ending) }
    ensures keeps { KeepsOutput (end_seen result.ending) (out.new ≡ out.old) (O.kept out.new)
        (O.faults out.old) (O.faults out.new) }
{
    match asked {
        Command::Run { summary } => run(rt, alloc, summary, src, out, gate, shared, maker),
        Command::Play { summary } => {
            take_board(alloc, Play { summary }, src, out, handlers, maker)
        }
        Command::Check { why } => check(alloc, why, src, out, maker),
        Command::Gen { n } => play_generated(alloc, n, out, handlers, maker),
        Command::Chained => take_board(alloc, Chain, src, out, handlers, maker),
        Command::Hotplug { vectors, events } => {
            let events = events.as_slice();
            hotplug(alloc, vectors, events, src, out, handlers, maker, notify)
        }
        Command::Sleep { armed } => {
            let armed = armed.as_slice();
            take_board(alloc, Sleep { armed }, src, out, handlers, maker)
        }
    }
}

/// `run`: reads a board, runs it by threads, and prints its log line by line, or a summary.
fn run<
    R: Threads + Wait + Sync,
    S: Source,
    O: Sink,
    G: Gate + Sync,
    D: SharedHandler + Sync,
    M: MakesDomainLine,
>(
    rt: &R,
    alloc: Global,
    summary: bool,
    src: &mut S,
    out: &mut O,
    gate: &G,
    shared: &D,
    maker: &M,
) -> Outcome
where
    M::Line: Send + Sync,
    ensures runs { TakesBoard (Unit {0}) (RunsAs (D.gave shared.now) summary) (S.left src.old)
        (S.left src.new) result.reports.reports (O.written out.old) (O.written out.new)
        result.ending }
    ensures read_fault { Counts (S.faults src.old) (S.faults src.new)
        (is_read_fault_end result.ending) }
    ensures wanted { TellsTaken (RunTells M.Line.may_want) (S.left src.old) result.reports.reports
        result.ending }
    ensures keeps { KeepsOutput (end_seen result.ending) (out.new ≡ out.old) (O.kept out.new)
        (O.faults out.old) (O.faults out.new) }
{
    match read_input(alloc, src) {
        Ok(board) => {
            board.is_board();
            run_board(rt, alloc, &board, summary, out, gate, shared, maker)
        }
        Err(refused) => Outcome::without_reports(alloc, Ending::from(refused)),
    }
}

/// Runs the board by threads, and prints its log line by line, or a summary.
fn run_board<
    R: Threads + Wait + Sync,
    O: Sink,
    G: Gate + Sync,
    D: SharedHandler + Sync,
    M: MakesDomainLine,
>(
    rt: &R,
    alloc: Global,
    board: &Board,
    summary: bool,
    out: &mut O,
    gate: &G,
    shared: &D,
    maker: &M,
) -> Outcome
where
    M::Line: Send + Sync,
    ensures runs { RunsAs (D.gave shared.now) summary board.now result.reports.reports
        (O.written out.old) (O.written out.new) result.ending }
    ensures wanted { TellsPlay (RunTells M.Line.may_want) board.now result.reports.reports
        result.ending }
    ensures unread { is_read_fault_end result.ending ≡ false }
    ensures keeps { KeepsOutput (end_seen result.ending) (out.new ≡ out.old) (O.kept out.new)
        (O.faults out.old) (O.faults out.new) }
{
    Outcome::of_play(run_and_print(rt, alloc, board, summary, maker, gate, shared, out))
}

/// `hotplug`: reads a board, and plays it with processors of 1 to 64 vectors that go offline and
/// come online by at most 64 events; the placings are printed too.
fn hotplug<S: Source, O: Sink, H: Handler, M: MakesDomainLine, N: Notifier>(
    alloc: Global,
    vectors: u32,
    events: &[Event],
    src: &mut S,
    out: &mut O,
    handlers: &mut H,
    maker: &M,
    notify: &mut N,
) -> Outcome
    requires vectors { (1 ≤ vectors) × (vectors ≤ 64) }
    requires events { length events.now ≤ 64 }
    ensures takes { TakesBoard
        (CallsNobody (λ runs. Heard H.hears runs handlers.old handlers.new)
        (λ placings. Told N.tells placings notify.old notify.new))
        (HotplugsAs (λ runs. Heard H.hears runs handlers.old handlers.new)
        (λ placings. Told N.tells placings notify.old notify.new) vectors events.now)
        (S.left src.old) (S.left src.new) result.reports.reports (O.written out.old)
        (O.written out.new) result.ending }
    ensures wanted { TellsTaken
        (λ b. TellsStep M.Line.may_want (planned_after b vectors events.now)) (S.left src.old)
        result.reports.reports result.ending }
    ensures read_fault { Counts (S.faults src.old) (S.faults src.new)
        (is_read_fault_end result.ending) }
    ensures keeps { KeepsOutput (end_seen result.ending) (out.new ≡ out.old) (O.kept out.new)
        (O.faults out.old) (O.faults out.new) }
{
    match read_input(alloc, src) {
        Ok(board) => {
            board.is_board();
            hotplug_board(alloc, board, vectors, events, out, handlers, maker, notify)
        }
        Err(refused) => Outcome::without_reports(alloc, Ending::from(refused)),
    }
}

/// Plays the board with processors that go offline and come online, and prints it.
fn hotplug_board<O: Sink, H: Handler, M: MakesDomainLine, N: Notifier>(
    alloc: Global,
    board: Board,
    vectors: u32,
    events: &[Event],
    out: &mut O,
    handlers: &mut H,
    maker: &M,
    notify: &mut N,
) -> Outcome
    requires vectors { (1 ≤ vectors) × (vectors ≤ 64) }
    requires events { length events.now ≤ 64 }
    ensures plays { HotplugsAs (λ runs. Heard H.hears runs handlers.old handlers.new)
        (λ placings. Told N.tells placings notify.old notify.new) vectors events.now board
        result.reports.reports (O.written out.old) (O.written out.new) result.ending }
    ensures wanted { TellsPlay
        (λ b. TellsStep M.Line.may_want (planned_after b vectors events.now)) board
        result.reports.reports result.ending }
    ensures keeps { KeepsOutput (end_seen result.ending) (out.new ≡ out.old) (O.kept out.new)
        (O.faults out.old) (O.faults out.new) }
    ensures unread { is_read_fault_end result.ending ≡ false }
{
    match hotplug_and_print(alloc, board, vectors, events, maker, handlers, notify, out) {
        Ok(played) => Outcome::of_play(played),
        Err(NotForHotplug) => Outcome::refused(alloc, FaultKind::NotForHotplug),
    }
}

/// `gen N`: makes the board that the number generates, plays it, and prints its summary.
fn play_generated<O: Sink, H: Handler, M: MakesDomainLine>(
    alloc: Global,
    n: u32,
    out: &mut O,
    handlers: &mut H,
    maker: &M,
) -> Outcome
    ensures generates { PlaysAs (λ runs. Heard H.hears runs handlers.old handlers.new) true
        (generated n) result.reports.reports (O.written out.old) (O.written out.new)
        result.ending }
    ensures wanted { TellsPlay (TellsStep M.Line.may_want) (generated n) result.reports.reports
        result.ending }
    ensures keeps { KeepsOutput (end_seen result.ending) (out.new ≡ out.old) (O.kept out.new)
        (O.faults out.old) (O.faults out.new) }
{
    match generate(alloc, n) {
        Ok(board) => Play { summary: true }.play(alloc, board, handlers, maker, out),
        Err(NoMemory) => Outcome::without_reports(alloc, Ending::NoMemory),
    }
}

/// `check`: reads a board and a log of it, judges the log, and prints the judgement.
fn check<S: Source, O: Sink, M: MakesDomainLine>(
    alloc: Global,
    why: bool,
    src: &mut S,
    out: &mut O,
    maker: &M,
) -> Outcome
    ensures checks { Checks why (S.left src.old) (S.left src.new) result.reports.reports
        (O.written out.old) (O.written out.new) result.ending }
    ensures read_fault { Counts (S.faults src.old) (S.faults src.new)
        (is_read_fault_end result.ending) }
    ensures keeps { KeepsOutput (end_seen result.ending) (out.new ≡ out.old) (O.kept out.new)
        (O.faults out.old) (O.faults out.new) }
{
    let end = check_and_print(alloc, why, src, out, maker);
    Outcome::without_reports(alloc, Ending::of_check(end))
}
