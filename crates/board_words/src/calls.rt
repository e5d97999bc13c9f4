//! Calls of scripts.
ghost use Rattle.std.specs.Prelude.{◌≡◌};
ghost use Rattle.std.specs.List.{flat_map};
ghost use Rattle.board_words.specs.Forms as forms;
ghost use Rattle.board_words.specs.Keywords.{call_text};
ghost use Rattle.board_words.specs.Places.{reads};
ghost use Rattle.board_words.specs.Statements as said;
ghost use Rattle.board_words.specs.declared.keywords.CallWord.TheVariants as calls;

use crate::faults::FaultKind;
use crate::keywords::CallWord;
use crate::parts::{has_one_again, sole_number};
use crate::places::Places;
use crate::statements::CallWords;
use crate::words::Words;
use irq_base::{DevNo, Flags, LineNo};

/// The call that the words say; `call` is the first word, `words` are those after it.
pub(crate) fn read_call(call: CallWord, words: Words<'_>) -> Result<CallWords, FaultKind>
    ensures { result
        ≡ reads (forms.call_form (call_text call)) (said.call_of (call_text call)) words.entry }
{
    match call {
        CallWord::Request => request(words),
        CallWord::Free => Ok(CallWords::Free { dev: dev(words)? }),
        CallWord::Ask => Ok(CallWords::Ask { dev: dev(words)? }),
        CallWord::Disable => Ok(CallWords::Disable { line: line(words)? }),
        CallWord::DisableNosync => Ok(CallWords::DisableNosync { line: line(words)? }),
        CallWord::Enable => Ok(CallWords::Enable { line: line(words)? }),
        CallWord::Sync => Ok(CallWords::Sync { line: line(words)? }),
        CallWord::Affinity => affinity(words),
        CallWord::Moment => moment(words),
        CallWord::SyncHard => Ok(CallWords::SyncHard { line: line(words)? }),
        CallWord::DisableHard => Ok(CallWords::DisableHard { line: line(words)? }),
        CallWord::Wake => Ok(CallWords::Wake { dev: dev(words)? }),
        CallWord::Quiet => Ok(CallWords::Quiet { dev: dev(words)? }),
        CallWord::Arm => Ok(CallWords::Arm { dev: dev(words)? }),
        CallWord::Serve => Ok(CallWords::Serve { dev: dev(words)? }),
    }
}

/// The one device that follows, and nothing else.
fn dev(words: Words<'_>) -> Result<DevNo, FaultKind>
    ensures { result ≡ reads (forms.at forms.part_number forms.full) (said.dev_at 0) words.entry }
{
    let number = sole_number(words, 1, 65_535)?;
    Ok(DevNo(number))
}

/// The one line that follows, and nothing else.
fn line(words: Words<'_>) -> Result<LineNo, FaultKind>
    ensures { result ≡ reads (forms.at forms.part_number forms.full) (said.line_at 0) words.entry }
{
    let number = sole_number(words, 1, 65_535)?;
    Ok(LineNo(number))
}

/// What follows `request`.
fn request(words: Words<'_>) -> Result<CallWords, FaultKind>
    ensures { result
        ≡ reads (forms.at forms.part_number (flat_map (forms.one_of forms.request_flags)))
        said.request_words words.entry }
{
    let mut places = Places::new(words);
    let dev = DevNo(places.number(1, 65_535));
    let options = places.words;
    places.flags();
    let flags = Flags {
        shared: options.has(b"shared"),
        oneshot: options.has(b"oneshot"),
        noauto: options.has(b"noauto"),
    };
    let twice = has_one_again(options, b"shared", b"oneshot", b"noauto");
    places.give(CallWords::Request { dev, flags, twice })
}

/// What follows `affinity`.
fn affinity(words: Words<'_>) -> Result<CallWords, FaultKind>
    ensures { result
        ≡ reads (forms.at forms.part_number (forms.at forms.mask_number forms.full))
        (said.call_of (call_text calls.Affinity)) words.entry }
{
    let mut places = Places::new(words);
    let line = LineNo(places.number(1, 65_535));
    let mask = places.number(0, u32::MAX);
    places.full();
    places.give(CallWords::Affinity { line, mask })
}

/// What follows `moment`.
fn moment(words: Words<'_>) -> Result<CallWords, FaultKind>
    ensures { result
        ≡ reads (forms.at forms.part_number (forms.at forms.moment_number forms.full))
        (said.call_of (call_text calls.Moment)) words.entry }
{
    let mut places = Places::new(words);
    let line = LineNo(places.number(1, 65_535));
    let at = places.number(0, u32::MAX);
    places.full();
    places.give(CallWords::Moment { line, at })
}
