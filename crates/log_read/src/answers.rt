//! The words for what an entry answers.
ghost use Rattle.std.specs.Prelude.{◌≡◌};
ghost use Rattle.log_text.specs.Words.{way_word, take_word, answer_word, loop_word, mask_word};
ghost use Rattle.log_text.specs.Words.{note_word, bit_word, resend_word, error_word, flags_word};
ghost use Rattle.log_text.specs.Words.{unlink_word, yes_word};
ghost use Rattle.log_read.specs.Takes.{Any, Reads, Takes, one};

use crate::words::Words;
use irq_base::{Answer, Errno, Flags, Note, Resend, TakeAnswer, UnlinkAnswer, Way};

pub(crate) fn way(words: &mut Words<'_>) -> Way
    ensures { Takes (one way_word) words.old words.new result }
{
    let word = words.next();
    words.fit(way_of(word), Way::Line)
}

fn way_of(word: &[u8]) -> Option<Way>
    ensures { Reads Any way_word word.now result }
{
    match word {
        b"line" => Some(Way::Line),
        b"resend" => Some(Way::Resend),
        _ => None,
    }
}

pub(crate) fn take_answer(words: &mut Words<'_>) -> TakeAnswer
    ensures { Takes (one take_word) words.old words.new result }
{
    let word = words.next();
    words.fit(take_answer_of(word), TakeAnswer::Handle)
}

fn take_answer_of(word: &[u8]) -> Option<TakeAnswer>
    ensures { Reads Any take_word word.now result }
{
    match word {
        b"handle" => Some(TakeAnswer::Handle),
        b"busy" => Some(TakeAnswer::Busy),
        b"off" => Some(TakeAnswer::Off),
        _ => None,
    }
}

pub(crate) fn answer(words: &mut Words<'_>) -> Answer
    ensures { Takes (one answer_word) words.old words.new result }
{
    let word = words.next();
    words.fit(answer_of(word), Answer::Nothing)
}

fn answer_of(word: &[u8]) -> Option<Answer>
    ensures { Reads Any answer_word word.now result }
{
    match word {
        b"nothing" => Some(Answer::Nothing),
        b"handled" => Some(Answer::Handled),
        b"wake" => Some(Answer::Wake),
        _ => None,
    }
}

/// Whether the flow handler goes round again.
pub(crate) fn again(words: &mut Words<'_>) -> bool
    ensures { Takes (one loop_word) words.old words.new result }
{
    let word = words.next();
    words.fit(again_of(word), true)
}

fn again_of(word: &[u8]) -> Option<bool>
    ensures { Reads Any loop_word word.now result }
{
    match word {
        b"again" => Some(true),
        b"leave" => Some(false),
        _ => None,
    }
}

/// Whether the line is unmasked.
pub(crate) fn unmask(words: &mut Words<'_>) -> bool
    ensures { Takes (one mask_word) words.old words.new result }
{
    let word = words.next();
    words.fit(unmask_of(word), true)
}

fn unmask_of(word: &[u8]) -> Option<bool>
    ensures { Reads Any mask_word word.now result }
{
    match word {
        b"unmask" => Some(true),
        b"asis" => Some(false),
        _ => None,
    }
}

pub(crate) fn note(words: &mut Words<'_>) -> Note
    ensures { Takes (one note_word) words.old words.new result }
{
    let word = words.next();
    words.fit(note_of(word), Note::Quiet)
}

fn note_of(word: &[u8]) -> Option<Note>
    ensures { Reads Any note_word word.now result }
{
    match word {
        b"quiet" => Some(Note::Quiet),
        b"counted" => Some(Note::Counted),
        b"killed" => Some(Note::Killed),
        _ => None,
    }
}

/// Yes or no.
pub(crate) fn yes(words: &mut Words<'_>) -> bool
    ensures { Takes (one yes_word) words.old words.new result }
{
    let word = words.next();
    words.fit(yes_of(word), true)
}

fn yes_of(word: &[u8]) -> Option<bool>
    ensures { Reads Any yes_word word.now result }
{
    match word {
        b"yes" => Some(true),
        b"no" => Some(false),
        _ => None,
    }
}

/// Whether the thread's bit is kept.
pub(crate) fn kept(words: &mut Words<'_>) -> bool
    ensures { Takes (one bit_word) words.old words.new result }
{
    let word = words.next();
    words.fit(kept_of(word), true)
}

fn kept_of(word: &[u8]) -> Option<bool>
    ensures { Reads Any bit_word word.now result }
{
    match word {
        b"kept" => Some(true),
        b"cleared" => Some(false),
        _ => None,
    }
}

pub(crate) fn resend(words: &mut Words<'_>) -> Resend
    ensures { Takes (one resend_word) words.old words.new result }
{
    let word = words.next();
    words.fit(resend_of(word), Resend::No)
}

fn resend_of(word: &[u8]) -> Option<Resend>
    ensures { Reads Any resend_word word.now result }
{
    match word {
        b"no" => Some(Resend::No),
        b"chip" => Some(Resend::Chip),
        b"soft" => Some(Resend::Soft),
        _ => None,
    }
}

/// The number of an error.
pub(crate) fn error(words: &mut Words<'_>) -> Errno
    ensures { Takes (one error_word) words.old words.new result }
{
    let word = words.next();
    words.fit(error_of(word), Errno::Inval)
}

fn error_of(word: &[u8]) -> Option<Errno>
    ensures { Reads Any error_word word.now result }
{
    match word {
        b"22" => Some(Errno::Inval),
        b"16" => Some(Errno::Busy),
        _ => None,
    }
}

/// The letters of the flags that are set, in the order shared, oneshot, noauto.
pub(crate) fn flags(words: &mut Words<'_>) -> Flags
    ensures { Takes (one flags_word) words.old words.new result }
{
    let word = words.next();
    words.fit(flags_of(word), flags_are(false, false, false))
}

fn flags_of(word: &[u8]) -> Option<Flags>
    ensures { Reads Any flags_word word.now result }
{
    match word {
        b"-" => Some(flags_are(false, false, false)),
        b"s" => Some(flags_are(true, false, false)),
        b"o" => Some(flags_are(false, true, false)),
        b"so" => Some(flags_are(true, true, false)),
        b"n" => Some(flags_are(false, false, true)),
        b"sn" => Some(flags_are(true, false, true)),
        b"on" => Some(flags_are(false, true, true)),
        b"son" => Some(flags_are(true, true, true)),
        _ => None,
    }
}

pub(crate) fn unlink_answer(words: &mut Words<'_>) -> UnlinkAnswer
    ensures { Takes (one unlink_word) words.old words.new result }
{
    let word = words.next();
    words.fit(unlink_answer_of(word), UnlinkAnswer::NotThere)
}

fn unlink_answer_of(word: &[u8]) -> Option<UnlinkAnswer>
    ensures { Reads Any unlink_word word.now result }
{
    match word {
        b"notthere" => Some(UnlinkAnswer::NotThere),
        b"last" => Some(UnlinkAnswer::Unlinked { last: true }),
        b"more" => Some(UnlinkAnswer::Unlinked { last: false }),
        _ => None,
    }
}

fn flags_are(shared: bool, oneshot: bool, noauto: bool) -> Flags
    ensures { result ≡ record { shared = shared; oneshot = oneshot; noauto = noauto } }
{
    Flags {
        shared,
        oneshot,
        noauto,
    }
}
