//! The top call.
ghost use Rattle.std.specs.Prelude.{◌≡◌, [], false, true, map};
ghost use Rattle.callbacks.specs.Heard.{Heard};
ghost use Rattle.explore_words.specs.Words.{Asks, AsksNothing, IsCount};
ghost use Rattle.explore_words.specs.declared.Asked.{Asked};
ghost use Rattle.irq_io.specs.Faults.{Counts};
ghost use Rattle.program_io.specs.ErrorRows.{Tells};
ghost use Rattle.program_io.specs.Streams.{KeepsOutput, KeepsStreams};
ghost use Rattle.explore_top.specs.Does.{Does, ExploresAs, ExploresOwn, ExploresWhat};
ghost use Rattle.explore_top.specs.Ending.{end_seen, error_text, is_quiet, is_read_fault_end};
ghost use Rattle.irq_explore.specs.Explored.{is_printed as is_whole, is_printing as is_saying};
ghost use Rattle.irq_explore.specs.Explored.{is_write_fault};

use crate::ending::Ending;
use crate::error_rows::error_row;
use board_def::Board;
use callbacks::Handler;
use explore_words::{Asked, What, may_ask, read_words};
use irq_explore::{ExploreFailed, Explored, explore_play, explore_row, explore_survey};
use irq_io::{Sink, Source};
use line_makers::MakesDomainLine;
use program_io::{read_input, tell_row};
use std::alloc::Global;
use text_row::TextRow;

/// Does what the words ask for: reads a board from `src`, and looks through the states of its
/// lines: it surveys all lines, or one, or looks for a shortest log of a line that ends with the
/// row, or that leaves the line so, and prints it, or a play of the board that comes to it: the
/// maker makes the lines that are played, and these handlers are called for the runs that the play
/// ends. Other words are refused before anything is read, and a row that the board's logs can't
/// have once it is read. What went wrong is told on `err`, in one row; a fault of `err` itself
/// changes nothing.
pub fn explore_main<S: Source, O: Sink, E: Sink, M: MakesDomainLine, H: Handler>(
    alloc: Global,
    words: &[&str],
    src: &mut S,
    out: &mut O,
    err: &mut E,
    maker: &M,
    handlers: &mut H,
) -> Ending
    ensures usage { AsksNothing (map (λ w. w.now) words.now) → result ≡ Ending.Usage }
    ensures unread { AsksNothing (map (λ w. w.now) words.now) → src.new ≡ src.old }
    ensures unheard { AsksNothing (map (λ w. w.now) words.now) → handlers.new ≡ handlers.old }
    ensures does { (asked : Asked) → Asks (map (λ w. w.now) words.now) asked
        → Does asked (λ runs. Heard H.hears runs handlers.old handlers.new) (S.left src.old)
        (S.left src.new) (O.written out.old) (O.written out.new) result }
    ensures keeps { KeepsStreams (end_seen result) S.faults src.old src.new O.kept O.faults
        out.old out.new E.written E.kept E.faults err.old err.new }
{
    let ending = work(alloc, words, src, out, maker, handlers);
    if !is_quiet(ending) {
        end_early(ending, err);
    }
    ending
}

/// All but the row on the error sink.
fn work<S: Source, O: Sink, M: MakesDomainLine, H: Handler>(
    alloc: Global,
    words: &[&str],
    src: &mut S,
    out: &mut O,
    maker: &M,
    handlers: &mut H,
) -> Ending
    ensures usage { AsksNothing (map (λ w. w.now) words.now) → result ≡ Ending.Usage }
    ensures unread { AsksNothing (map (λ w. w.now) words.now) → src.new ≡ src.old }
    ensures unheard { AsksNothing (map (λ w. w.now) words.now) → handlers.new ≡ handlers.old }
    ensures does { (asked : Asked) → Asks (map (λ w. w.now) words.now) asked
        → Does asked (λ runs. Heard H.hears runs handlers.old handlers.new) (S.left src.old)
        (S.left src.new) (O.written out.old) (O.written out.new) result }
    ensures read_fault { Counts (S.faults src.old) (S.faults src.new) (is_read_fault_end result) }
    ensures keeps { KeepsOutput (end_seen result) (out.new ≡ out.old) (O.kept out.new)
        (O.faults out.old) (O.faults out.new) }
{
    match read_words(words) {
        Some(asked) => act(alloc, asked, src, out, maker, handlers),
        None => Ending::Usage,
    }
}

/// Does what is asked.
fn act<S: Source, O: Sink, M: MakesDomainLine, H: Handler>(
    alloc: Global,
    asked: Asked,
    src: &mut S,
    out: &mut O,
    maker: &M,
    handlers: &mut H,
) -> Ending
    requires { IsCount asked.states }
    ensures does { Does asked (λ runs. Heard H.hears runs handlers.old handlers.new)
        (S.left src.old) (S.left src.new) (O.written out.old) (O.written out.new) result }
    ensures read_fault { Counts (S.faults src.old) (S.faults src.new) (is_read_fault_end result) }
    ensures keeps { KeepsOutput (end_seen result) (out.new ≡ out.old) (O.kept out.new)
        (O.faults out.old) (O.faults out.new) }
{
    match read_input(alloc, src) {
        Ok(board) => {
            board.is_board();
            explore_own(alloc, &board, asked, out, maker, handlers)
        }
        Err(refused) => Ending::from(refused),
    }
}

/// Does with the board what is asked, if the board can be asked for it.
fn explore_own<O: Sink, M: MakesDomainLine, H: Handler>(
    alloc: Global,
    board: &Board,
    asked: Asked,
    out: &mut O,
    maker: &M,
    handlers: &mut H,
) -> Ending
    requires { IsCount asked.states }
    ensures does { ExploresOwn asked (λ runs. Heard H.hears runs handlers.old handlers.new)
        board.now (O.written out.old) (O.written out.new) result }
    ensures keeps { KeepsOutput (end_seen result) (out.new ≡ out.old) (O.kept out.new)
        (O.faults out.old) (O.faults out.new) }
{
    if may_ask(board, &asked.what) {
        explore(alloc, board, asked, out, maker, handlers)
    } else {
        Ending::Usage
    }
}

/// Does with the board what is asked.
fn explore<O: Sink, M: MakesDomainLine, H: Handler>(
    alloc: Global,
    board: &Board,
    asked: Asked,
    out: &mut O,
    maker: &M,
    handlers: &mut H,
) -> Ending
    requires { IsCount asked.states }
    ensures does { ExploresAs asked (λ runs. Heard H.hears runs handlers.old handlers.new)
        board.now (O.written out.old) (O.written out.new) result }
    ensures keeps { KeepsOutput (end_seen result) (out.new ≡ out.old) (O.kept out.new)
        (O.faults out.old) (O.faults out.new) }
{
    let end = explore_what(alloc, board, asked.states, asked.what, out, maker, handlers);
    Ending::of(end, asked.states)
}

/// Does with the board what is asked of its lines.
fn explore_what<O: Sink, M: MakesDomainLine, H: Handler>(
    alloc: Global,
    board: &Board,
    states: u32,
    what: What,
    out: &mut O,
    maker: &M,
    handlers: &mut H,
) -> Result<Explored, ExploreFailed>
    requires { IsCount states }
    ensures does { ExploresWhat states what
        (λ runs. Heard H.hears runs handlers.old handlers.new) board.now (O.written out.old)
        (O.written out.new) result }
    ensures emptied { is_whole result ≡ true → O.kept out.new ≡ [] }
    ensures write_fault { Counts (O.faults out.old) (O.faults out.new) (is_write_fault result) }
    ensures silent { is_saying result ≡ false → out.new ≡ out.old }
{
    match what {
        What::Survey => explore_survey(alloc, board, states, None, out),
        What::Line(line) => explore_survey(alloc, board, states, Some(line), out),
        What::Row(line, wanted) => explore_row(alloc, board, states, line, wanted, out),
        What::Play(line, wanted) => explore_play(
            alloc, board, states, line, wanted, maker, handlers, out,
        ),
    }
}

/// Whether the ending has no row on the error sink.
fn is_quiet(ending: Ending) -> bool
    ensures { result ≡ is_quiet ending }
{
    match ending {
        Ending::Done | Ending::Never => true,
        _ => false,
    }
}

/// Says on the error sink how the call ended.
pub fn end_early<E: Sink>(ending: Ending, err: &mut E)
    ensures { Tells (error_text ending) (E.written err.old) (E.written err.new) (E.kept err.new)
        (E.faults err.old) (E.faults err.new) }
{
    let mut row = TextRow::new();
    error_row(&mut row, ending);
    tell_row(err, row.bytes());
}
