//! From words to statements.
ghost use Rattle.std.specs.Prelude.{◌≡◌, false, codes};
ghost use Rattle.std.specs.List.{list_any};
ghost use Rattle.board_words.specs.Forms as forms;
ghost use Rattle.board_words.specs.Keywords.{call_text, call_texts};
ghost use Rattle.board_words.specs.Places.{reads};
ghost use Rattle.board_words.specs.Reads.{Reads, Tells, WantsForLists};
ghost use Rattle.board_words.specs.Seen.{words_left};
ghost use Rattle.board_words.specs.Statements as said;
ghost use Rattle.board_words.specs.declared.statements.Statement.TheVariants as statements;

use crate::calls::read_call;
use crate::faults::FaultKind;
use crate::keywords::{CallWord, call_word, part_word};
use crate::parts::read_part;
use crate::places::Places;
use crate::spelling;
use crate::statements::{PickList, Statement, StatementRefused};
use crate::versions::{has_moments, has_runs};
use crate::words::{Words, is};
use irq_base::DevNo;
use std::alloc::Global;

/// What the words of a text line say in a text of this version. Only picks and answers take memory.
pub fn read_statement(
    alloc: Global,
    words: Words<'_>,
    version: u32,
) -> Result<Statement, StatementRefused>
    ensures exact { Reads version (words_left words.entry) result }
    ensures memory { WantsForLists (words_left words.entry) result }
{
    let mut rest = words;
    let Some(word) = rest.next() else {
        return Err(StatementRefused::Fault(FaultKind::UnknownWord));
    };
    if let Some(call) = call_word(word) {
        if is_call_of_later(call, version) {
            return Err(StatementRefused::Fault(FaultKind::UnknownWord));
        }
        return match read_call(call, rest) {
            Ok(call) => Ok(Statement::Call(call)),
            Err(fault) => Err(StatementRefused::Fault(fault)),
        };
    }
    if is(word, b"picks") {
        return read_picks(alloc, rest);
    }
    if is_part_of_later(word, version) {
        return Err(StatementRefused::Fault(FaultKind::UnknownWord));
    }
    if is(word, b"answers") {
        return read_answers(alloc, rest);
    }
    match read_named_part(word, rest, version) {
        Ok(statement) => Ok(statement),
        Err(kind) => Err(StatementRefused::Fault(kind)),
    }
}

/// Whether the call is one of a later version.
fn is_call_of_later(call: CallWord, version: u32) -> bool
    ensures { result ≡ forms.is_of_later version (call_text call) }
{
    match call {
        CallWord::Moment => !has_moments(version),
        CallWord::SyncHard
        | CallWord::DisableHard
        | CallWord::Wake
        | CallWord::Quiet
        | CallWord::Arm
        | CallWord::Serve => !has_runs(version),
        CallWord::Request
        | CallWord::Free
        | CallWord::Ask
        | CallWord::Disable
        | CallWord::DisableNosync
        | CallWord::Enable
        | CallWord::Sync
        | CallWord::Affinity => false,
    }
}

/// Whether the word, which is no call, begins a statement of a later version.
#[tactic(auto, using(crate::proofs::CallStatements::later_part))]
fn is_part_of_later(word: &[u8], version: u32) -> bool
    requires call { list_any (forms.is word.now) call_texts ≡ false }
    ensures { result ≡ forms.is_of_later version word.now }
{
    (is(word, b"answers") || is(word, b"handler") || is(word, b"thread")) && !has_runs(version)
}

/// What a statement on a part says, by its first word and the words after it. It stands apart: most
/// statements are calls.
#[inline(never)]
fn read_named_part(word: &[u8], words: Words<'_>, version: u32) -> Result<Statement, FaultKind>
    requires picks { forms.is word.now (codes "picks") ≡ false }
    requires answers { forms.is word.now (codes "answers") ≡ false }
    requires call { list_any (forms.is word.now) call_texts ≡ false }
    ensures { result
        ≡ reads (forms.form_after version word.now) (said.statement_after word.now) words.entry }
{
    match part_word(word) {
        Some(part) => read_part(part, words, version),
        None => Err(FaultKind::UnknownWord),
    }
}

/// The picks that the words spell.
#[inline(never)]
fn read_picks(alloc: Global, words: Words<'_>) -> Result<Statement, StatementRefused>
    ensures { Tells (forms.picks_form (words_left words.entry))
        (statements.Picks (said.picks_of (words_left words.entry))) result }
{
    if words.is_empty() {
        return Err(StatementRefused::Fault(FaultKind::WrongCount));
    }
    let mut rest = words;
    let mut picks = PickList::new(alloc);
    while let Some(word) = rest.next() {
        let Some(pick) = spelling::pick(word) else {
            return Err(StatementRefused::Fault(FaultKind::BadName));
        };
        if picks.push(pick).is_err() {
            return Err(StatementRefused::NoMemory);
        }
    }
    Ok(Statement::Picks(picks))
}

/// The answers that the words spell.
#[inline(never)]
fn read_answers(alloc: Global, words: Words<'_>) -> Result<Statement, StatementRefused>
    ensures { Tells (forms.at forms.part_number forms.part_form (words_left words.entry))
        (said.answers_words (words_left words.entry)) result }
{
    let mut places = Places::new(words);
    let dev = DevNo(places.number(1, 65_535));
    let part = places.part();
    let Ok(answers) = places.answers(alloc, part) else {
        return Err(StatementRefused::NoMemory);
    };
    match places.give(()) {
        Ok(()) => Ok(Statement::Answers { dev, part, answers }),
        Err(wrong) => Err(StatementRefused::Fault(wrong)),
    }
}
