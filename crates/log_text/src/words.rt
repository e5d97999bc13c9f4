//! The words for what an entry answers, each of at most nine letters, and for why a line is
//! refused.
ghost use Rattle.std.specs.Prelude.{◌≡◌, ◌≤◌, length};
ghost use Rattle.log_text.specs.LayoutRows.{unmapped_word};
ghost use Rattle.log_text.specs.Words.{way_word, take_word, answer_word, loop_word, mask_word};
ghost use Rattle.log_text.specs.Words.{note_word, bit_word, resend_word, error_word, flags_word};
ghost use Rattle.log_text.specs.Words.{unlink_word, yes_word};

use board_def::Unmapped;
use irq_base::{Answer, Errno, Flags, Note, Resend, TakeAnswer, UnlinkAnswer, Way};

pub(crate) fn of_way(way: Way) -> &'static [u8]
    ensures word { result.now ≡ way_word way }
    ensures short { length result.now ≤ 9 }
{
    match way {
        Way::Line => b"line",
        Way::Resend => b"resend",
    }
}

pub(crate) fn of_take(answer: TakeAnswer) -> &'static [u8]
    ensures word { result.now ≡ take_word answer }
    ensures short { length result.now ≤ 9 }
{
    match answer {
        TakeAnswer::Handle => b"handle",
        TakeAnswer::Busy => b"busy",
        TakeAnswer::Off => b"off",
    }
}

pub(crate) fn of_answer(answer: Answer) -> &'static [u8]
    ensures word { result.now ≡ answer_word answer }
    ensures short { length result.now ≤ 9 }
{
    match answer {
        Answer::Nothing => b"nothing",
        Answer::Handled => b"handled",
        Answer::Wake => b"wake",
    }
}

// Whether the flow handler goes round again.
pub(crate) fn of_loop(again: bool) -> &'static [u8]
    ensures word { result.now ≡ loop_word again }
    ensures short { length result.now ≤ 9 }
{
    if again { b"again" } else { b"leave" }
}

// Whether the line is unmasked.
pub(crate) fn of_mask(unmask: bool) -> &'static [u8]
    ensures word { result.now ≡ mask_word unmask }
    ensures short { length result.now ≤ 9 }
{
    if unmask { b"unmask" } else { b"asis" }
}

pub(crate) fn of_note(note: Note) -> &'static [u8]
    ensures word { result.now ≡ note_word note }
    ensures short { length result.now ≤ 9 }
{
    match note {
        Note::Quiet => b"quiet",
        Note::Counted => b"counted",
        Note::Killed => b"killed",
    }
}

pub(crate) fn of_yes(yes: bool) -> &'static [u8]
    ensures word { result.now ≡ yes_word yes }
    ensures short { length result.now ≤ 9 }
{
    if yes { b"yes" } else { b"no" }
}

// Whether the thread's bit is kept.
pub(crate) fn of_bit(kept: bool) -> &'static [u8]
    ensures word { result.now ≡ bit_word kept }
    ensures short { length result.now ≤ 9 }
{
    if kept { b"kept" } else { b"cleared" }
}

pub(crate) fn of_resend(resend: Resend) -> &'static [u8]
    ensures word { result.now ≡ resend_word resend }
    ensures short { length result.now ≤ 9 }
{
    match resend {
        Resend::No => b"no",
        Resend::Chip => b"chip",
        Resend::Soft => b"soft",
    }
}

// The number of the error, as the kernel counts them.
pub(crate) fn of_error(errno: Errno) -> &'static [u8]
    ensures word { result.now ≡ error_word errno }
    ensures short { length result.now ≤ 9 }
{
    match errno {
        Errno::Inval => b"22",
        Errno::Busy => b"16",
    }
}

// The letters of the flags that are set, in the order shared, oneshot, noauto.
pub(crate) fn of_flags(flags: Flags) -> &'static [u8]
    ensures word { result.now ≡ flags_word flags }
    ensures short { length result.now ≤ 9 }
{
    match (flags.shared, flags.oneshot, flags.noauto) {
        (false, false, false) => b"-",
        (true, false, false) => b"s",
        (false, true, false) => b"o",
        (true, true, false) => b"so",
        (false, false, true) => b"n",
        (true, false, true) => b"sn",
        (false, true, true) => b"on",
        (true, true, true) => b"son",
    }
}

pub(crate) fn of_unlink(answer: UnlinkAnswer) -> &'static [u8]
    ensures word { result.now ≡ unlink_word answer }
    ensures short { length result.now ≤ 9 }
{
    match answer {
        UnlinkAnswer::NotThere => b"notthere",
        UnlinkAnswer::Unlinked { last: true } => b"last",
        UnlinkAnswer::Unlinked { last: false } => b"more",
    }
}

// Why a line is refused, in at most twelve letters.
pub(crate) fn of_unmapped(why: Unmapped) -> &'static [u8]
    ensures word { result.now ≡ unmapped_word why }
    ensures short { length result.now ≤ 12 }
{
    match why {
        Unmapped::Taken => b"taken",
        Unmapped::OutOfRange => b"out-of-range",
        Unmapped::NoMask => b"no-mask",
    }
}
