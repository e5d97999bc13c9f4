//! The words of what a thread does.
ghost use Rattle.std.specs.Prelude.{◌≡◌, ◌≤◌, ◌++◌, length};
ghost use Rattle.log_text.specs.EntryWords.{thread_words};
ghost use Rattle.log_text.specs.Words.{handled_words};
ghost use Rattle.log_text.specs.Spaced.{spaced};

use crate::pieces::{push_number, push_word};
use crate::words;
use irq_base::ThreadEntry;
use text_row::TextRow;

pub(crate) fn push_thread_entry(row: &mut TextRow, entry: ThreadEntry)
    requires { length row.old ≤ 22 }
    ensures text { row.new ≡ row.old ++ spaced (thread_words entry) }
    ensures short { length row.new ≤ 100 }
{
    match entry {
        ThreadEntry::Begin => push_word(row, b"begin"),
        ThreadEntry::Return { handled, served } => {
            push_word(row, b"return");
            push_number(row, served);
            push_handled(row, handled, served > 0);
        }
        ThreadEntry::Finish { kept, unmask } => {
            push_word(row, b"finish");
            push_word(row, words::of_bit(kept));
            push_word(row, words::of_mask(unmask));
        }
        ThreadEntry::Done => push_word(row, b"done"),
    }
}

/// Adds what the thread's handler answered, unless its number tells. `served`: whether it served.
fn push_handled(row: &mut TextRow, handled: bool, served: bool)
    requires { length row.old ≤ 64 }
    ensures text { row.new ≡ row.old ++ spaced (handled_words handled served) }
    ensures short { length row.new ≤ 100 }
{
    match (handled, served) {
        (true, true) | (false, false) => {}
        (true, false) => push_word(row, b"handled"),
        (false, true) => push_word(row, b"nothing"),
    }
}
