//! The words of what drivers alone do.
ghost use Rattle.std.specs.Prelude.{◌≡◌, ◌≤◌, [], ◌∷◌, ◌++◌, length, codes};
ghost use Rattle.log_text.specs.EntryWords.{driver_words};
ghost use Rattle.log_text.specs.Words.{affinity_words, error_word, link_words, opened_words};
ghost use Rattle.log_text.specs.Spaced.{spaced};

use crate::calls::push_started;
use crate::pieces::{push_number, push_word};
use crate::words;
use irq_base::{AffinityAnswer, DriverEntry, Errno, LinkAnswer, Opened};
use text_row::TextRow;

pub(crate) fn push_driver_entry(row: &mut TextRow, entry: DriverEntry)
    requires { length row.old ≤ 22 }
    ensures text { row.new ≡ row.old ++ spaced (driver_words entry) }
    ensures short { length row.new ≤ 100 }
{
    match entry {
        DriverEntry::Ask { edge, dev } => {
            push_word(row, b"ask");
            push_number(row, dev.0);
            if !edge {
                push_word(row, b"no");
            }
        }
        DriverEntry::Request {
            flags,
            answer,
            opened,
            dev,
        } => {
            push_word(row, b"request");
            push_number(row, dev.0);
            push_word(row, words::of_flags(flags));
            push_link(row, answer, opened);
        }
        DriverEntry::Affinity { answer, mask } => {
            push_word(row, b"affinity");
            push_number(row, mask);
            push_affinity(row, answer);
        }
        DriverEntry::Moment { at } => {
            push_word(row, b"moment");
            push_number(row, at);
        }
    }
}

fn push_link(row: &mut TextRow, answer: LinkAnswer, opened: Opened)
    requires { length row.old ≤ 64 }
    ensures text { row.new ≡ row.old ++ spaced (link_words answer opened) }
    ensures short { length row.new ≤ 100 }
{
    match answer {
        LinkAnswer::Linked => push_linked(row, opened),
        LinkAnswer::Refused(errno) => push_refused(row, errno),
    }
}

fn push_refused(row: &mut TextRow, errno: Errno)
    requires { length row.old ≤ 76 }
    ensures text { row.new ≡ row.old ++ spaced (codes "refused" ∷ error_word errno ∷ []) }
    ensures short { length row.new ≤ 100 }
{
    push_word(row, b"refused");
    push_word(row, words::of_error(errno));
}

fn push_linked(row: &mut TextRow, opened: Opened)
    requires { length row.old ≤ 64 }
    ensures text { row.new ≡ row.old ++ spaced (codes "linked" ∷ opened_words opened) }
    ensures short { length row.new ≤ 100 }
{
    push_word(row, b"linked");
    match opened {
        Opened::No => push_word(row, b"no"),
        Opened::Unbalanced => push_word(row, b"unbalanced"),
        Opened::Lowered => push_word(row, b"lowered"),
        Opened::Started { resend } => push_started(row, resend),
    }
}

fn push_affinity(row: &mut TextRow, answer: AffinityAnswer)
    requires { length row.old ≤ 76 }
    ensures text { row.new ≡ row.old ++ spaced (affinity_words answer) }
    ensures short { length row.new ≤ 100 }
{
    match answer {
        AffinityAnswer::Now => push_word(row, b"now"),
        AffinityAnswer::Later => push_word(row, b"later"),
        AffinityAnswer::Refused(errno) => push_refused(row, errno),
    }
}
