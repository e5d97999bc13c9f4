//! The words of a call, whoever makes it.
ghost use Rattle.std.specs.Prelude.{◌≡◌};
ghost use Rattle.log_read.specs.Forms.{TakesCall, TakesCallFrom};
ghost use Rattle.log_read.specs.Kinds.{call_verb_word};
ghost use Rattle.log_read.specs.Takes.{Any, Reads};
ghost use Rattle.log_read.specs.declared.calls.CallVerb.TheVariants as call_verbs;

use crate::answers::{unlink_answer, yes};
use crate::numbers::number;
use crate::said::enabled;
use crate::words::Words;
use irq_base::{CallEntry, DevNo};

/// The word that tells what follows.
#[derive(Clone, Copy)]
pub(crate) enum CallVerb {
    Disable,
    HardClear,
    Synced,
    Enable,
    Unlink,
    Freed,
    Wake,
    Quiet,
    Arm,
    Serve,
}

/// The call whose first word is `word`.
pub(crate) fn call(words: &mut Words<'_>, word: &[u8]) -> CallEntry
    ensures { TakesCallFrom word.now words.old words.new result }
{
    let verb = words.fit(call_verb_of(word), CallVerb::Disable);
    call_behind(words, verb)
}

fn call_verb_of(word: &[u8]) -> Option<CallVerb>
    ensures { Reads Any call_verb_word word.now result }
{
    match word {
        b"disable" => Some(CallVerb::Disable),
        b"hardclear" => Some(CallVerb::HardClear),
        b"synced" => Some(CallVerb::Synced),
        b"enable" => Some(CallVerb::Enable),
        b"unlink" => Some(CallVerb::Unlink),
        b"freed" => Some(CallVerb::Freed),
        b"wake" => Some(CallVerb::Wake),
        b"quiet" => Some(CallVerb::Quiet),
        b"arm" => Some(CallVerb::Arm),
        b"serve" => Some(CallVerb::Serve),
        _ => None,
    }
}

fn call_behind(words: &mut Words<'_>, verb: CallVerb) -> CallEntry
    ensures { TakesCall verb words.old words.new result }
{
    match verb {
        CallVerb::Disable => CallEntry::Disable,
        CallVerb::HardClear => CallEntry::HardClear,
        CallVerb::Synced => CallEntry::Synced,
        CallVerb::Enable => enable(words),
        CallVerb::Unlink => unlink(words),
        CallVerb::Freed => freed(words),
        CallVerb::Wake => wake(words),
        CallVerb::Quiet => quiet(words),
        CallVerb::Arm => arm(words),
        CallVerb::Serve => serve(words),
    }
}

fn enable(words: &mut Words<'_>) -> CallEntry
    ensures { TakesCall call_verbs.Enable words.old words.new result }
{
    let answer = enabled(words);
    CallEntry::Enable { answer }
}

fn unlink(words: &mut Words<'_>) -> CallEntry
    ensures { TakesCall call_verbs.Unlink words.old words.new result }
{
    let dev = DevNo(number(words));
    let answer = unlink_answer(words);
    CallEntry::Unlink { answer, dev }
}

fn freed(words: &mut Words<'_>) -> CallEntry
    ensures { TakesCall call_verbs.Freed words.old words.new result }
{
    let dev = DevNo(number(words));
    CallEntry::Freed { dev }
}

fn wake(words: &mut Words<'_>) -> CallEntry
    ensures { TakesCall call_verbs.Wake words.old words.new result }
{
    let dev = DevNo(number(words));
    let woken = yes(words);
    CallEntry::Wake { woken, dev }
}

fn quiet(words: &mut Words<'_>) -> CallEntry
    ensures { TakesCall call_verbs.Quiet words.old words.new result }
{
    let dev = DevNo(number(words));
    CallEntry::Quiet { dev }
}

fn arm(words: &mut Words<'_>) -> CallEntry
    ensures { TakesCall call_verbs.Arm words.old words.new result }
{
    let dev = DevNo(number(words));
    let edge = yes(words);
    CallEntry::Arm { edge, dev }
}

fn serve(words: &mut Words<'_>) -> CallEntry
    ensures { TakesCall call_verbs.Serve words.old words.new result }
{
    let dev = DevNo(number(words));
    let served = number(words);
    CallEntry::Serve { dev, served }
}
