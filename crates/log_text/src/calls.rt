//! The words of a call's step, whoever makes the call.
ghost use Rattle.std.specs.Prelude.{◌≡◌, ◌≤◌, [], ◌∷◌, ◌++◌, length, codes, decimal};
ghost use Rattle.log_text.specs.EntryWords.{call_words};
ghost use Rattle.log_text.specs.Words.{enable_words, resend_word};
ghost use Rattle.log_text.specs.Spaced.{spaced};

use crate::pieces::{push_number, push_word};
use crate::words;
use irq_base::{CallEntry, DevNo, EnableAnswer, Resend};
use text_row::TextRow;

pub(crate) fn push_call(row: &mut TextRow, call: CallEntry)
    requires { length row.old ≤ 22 }
    ensures text { row.new ≡ row.old ++ spaced (call_words call) }
    ensures short { length row.new ≤ 100 }
{
    match call {
        CallEntry::Disable => push_word(row, b"disable"),
        CallEntry::HardClear => push_word(row, b"hardclear"),
        CallEntry::Synced => push_word(row, b"synced"),
        CallEntry::Enable { answer } => {
            push_word(row, b"enable");
            push_enable(row, answer);
        }
        CallEntry::Unlink { answer, dev } => {
            push_verb(row, b"unlink", dev);
            push_word(row, words::of_unlink(answer));
        }
        CallEntry::Freed { dev } => push_verb(row, b"freed", dev),
        CallEntry::Wake { woken, dev } => {
            push_verb(row, b"wake", dev);
            push_word(row, words::of_yes(woken));
        }
        CallEntry::Quiet { dev } => push_verb(row, b"quiet", dev),
        CallEntry::Arm { edge, dev } => {
            push_verb(row, b"arm", dev);
            push_word(row, words::of_yes(edge));
        }
        CallEntry::Serve { dev, served } => {
            push_verb(row, b"serve", dev);
            push_number(row, served);
        }
    }
}

fn push_verb(row: &mut TextRow, verb: &[u8], dev: DevNo)
    requires room { length row.old ≤ 22 }
    requires verb { length verb.now ≤ 9 }
    ensures text { row.new ≡ row.old ++ spaced (verb.now ∷ decimal dev.0 ∷ []) }
    ensures short { length row.new ≤ 46 }
{
    push_word(row, verb);
    push_number(row, dev.0);
}

fn push_enable(row: &mut TextRow, answer: EnableAnswer)
    requires { length row.old ≤ 64 }
    ensures text { row.new ≡ row.old ++ spaced (enable_words answer) }
    ensures short { length row.new ≤ 100 }
{
    match answer {
        EnableAnswer::Unbalanced => push_word(row, b"unbalanced"),
        EnableAnswer::Lowered => push_word(row, b"lowered"),
        EnableAnswer::Started { resend } => push_started(row, resend),
    }
}

pub(crate) fn push_started(row: &mut TextRow, resend: Resend)
    requires { length row.old ≤ 76 }
    ensures text { row.new ≡ row.old ++ spaced (codes "started" ∷ resend_word resend ∷ []) }
    ensures short { length row.new ≤ 100 }
{
    push_word(row, b"started");
    push_word(row, words::of_resend(resend));
}
