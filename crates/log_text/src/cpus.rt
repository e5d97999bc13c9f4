//! The words of what a processor does in a flow.
ghost use Rattle.std.specs.Prelude.{◌≡◌, ◌≤◌, ◌++◌, length};
ghost use Rattle.log_text.specs.EntryWords.{cpu_words};
ghost use Rattle.log_text.specs.Spaced.{spaced};

use crate::pieces::{push_number, push_word};
use crate::words;
use irq_base::CpuEntry;
use text_row::TextRow;

pub(crate) fn push_cpu_entry(row: &mut TextRow, entry: CpuEntry)
    requires { length row.old ≤ 22 }
    ensures text { row.new ≡ row.old ++ spaced (cpu_words entry) }
    ensures short { length row.new ≤ 100 }
{
    match entry {
        CpuEntry::Take { way, answer } => {
            push_word(row, b"take");
            push_word(row, words::of_way(way));
            push_word(row, words::of_take(answer));
        }
        CpuEntry::Begin { dev } => {
            push_word(row, b"begin");
            push_number(row, dev.0);
        }
        CpuEntry::Return {
            answer,
            dev,
            served,
        } => {
            push_word(row, b"return");
            push_number(row, dev.0);
            push_word(row, words::of_answer(answer));
            push_number(row, served);
        }
        CpuEntry::End {
            again,
            unmask,
            note,
        } => {
            push_word(row, b"end");
            push_word(row, words::of_loop(again));
            push_word(row, words::of_mask(unmask));
            push_word(row, words::of_note(note));
        }
    }
}
