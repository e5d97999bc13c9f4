//! The first words of statements.
ghost use Rattle.std.specs.Prelude.{◌≡◌, true, false, codes, MatchOption};
ghost use Rattle.std.specs.List.{list_any};
ghost use Rattle.board_words.specs.Forms.{is};
ghost use Rattle.board_words.specs.Keywords.{part_text, part_texts, call_text, call_texts};
ghost use Rattle.board_words.specs.Keywords.{run_call_texts};

use crate::words::is;

/// The first word of a statement on a part of the board.
#[derive(Clone, Copy)]
pub(crate) enum PartWord {
    Board,
    Cpus,
    Spurious,
    Log,
    Domain,
    Line,
    Device,
    Handler,
    Thread,
    Driver,
}

/// The first word of a call.
#[derive(Clone, Copy)]
pub(crate) enum CallWord {
    Request,
    Free,
    Ask,
    Disable,
    DisableNosync,
    Enable,
    Sync,
    Affinity,
    Moment,
    SyncHard,
    DisableHard,
    Wake,
    Quiet,
    Arm,
    Serve,
}

/// The part that the word names.
pub(crate) fn part_word(word: &[u8]) -> Option<PartWord>
    ensures { MatchOption result (list_any (is word.now) part_texts ≡ false)
        (λ part. word.now ≡ part_text part) }
{
    if is(word, b"board") {
        return Some(PartWord::Board);
    }
    if is(word, b"cpus") {
        return Some(PartWord::Cpus);
    }
    if is(word, b"spurious") {
        return Some(PartWord::Spurious);
    }
    if is(word, b"log") {
        return Some(PartWord::Log);
    }
    if is(word, b"domain") {
        return Some(PartWord::Domain);
    }
    if is(word, b"line") {
        return Some(PartWord::Line);
    }
    if is(word, b"device") {
        return Some(PartWord::Device);
    }
    if is(word, b"handler") {
        return Some(PartWord::Handler);
    }
    if is(word, b"thread") {
        return Some(PartWord::Thread);
    }
    if is(word, b"driver") {
        return Some(PartWord::Driver);
    }
    None
}

/// The call that the word names.
pub(crate) fn call_word(word: &[u8]) -> Option<CallWord>
    ensures { MatchOption result (list_any (is word.now) call_texts ≡ false)
        (λ call. word.now ≡ call_text call) }
{
    // most calls of a board are asks
    if is_ask(word) {
        return Some(CallWord::Ask);
    }
    if is(word, b"request") {
        return Some(CallWord::Request);
    }
    if is(word, b"free") {
        return Some(CallWord::Free);
    }
    if is(word, b"disable") {
        return Some(CallWord::Disable);
    }
    if is(word, b"disable_nosync") {
        return Some(CallWord::DisableNosync);
    }
    if is(word, b"enable") {
        return Some(CallWord::Enable);
    }
    if is(word, b"sync") {
        return Some(CallWord::Sync);
    }
    if is(word, b"affinity") {
        return Some(CallWord::Affinity);
    }
    if is(word, b"moment") {
        return Some(CallWord::Moment);
    }
    run_call_word(word)
}

/// The call of version 3 that the word names.
fn run_call_word(word: &[u8]) -> Option<CallWord>
    ensures { MatchOption result (list_any (is word.now) run_call_texts ≡ false)
        (λ call. word.now ≡ call_text call) }
{
    if is(word, b"sync_hard") {
        return Some(CallWord::SyncHard);
    }
    if is(word, b"disable_hard") {
        return Some(CallWord::DisableHard);
    }
    if is(word, b"wake") {
        return Some(CallWord::Wake);
    }
    if is(word, b"quiet") {
        return Some(CallWord::Quiet);
    }
    if is(word, b"arm") {
        return Some(CallWord::Arm);
    }
    if is(word, b"serve") {
        return Some(CallWord::Serve);
    }
    None
}

/// Whether the word is `ask`, letter by letter: that is quicker than a comparison of two texts.
fn is_ask(word: &[u8]) -> bool
    ensures value { result ≡ is word.now (codes "ask") }
    ensures same { result ≡ true → word.now ≡ codes "ask" }
{
    matches!(word, [b'a', b's', b'k'])
}
