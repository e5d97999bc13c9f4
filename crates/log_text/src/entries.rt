//! The row of an entry.
ghost use Rattle.std.specs.Prelude.{◌≡◌, ◌≤◌, ◌++◌, length};
ghost use Rattle.log_text.specs.EntryWords.{said_words, IsPrintable};
ghost use Rattle.log_text.specs.Rows.{entry_text};
ghost use Rattle.log_text.specs.Spaced.{spaced};

use crate::calls::push_call;
use crate::cpus::push_cpu_entry;
use crate::drivers::push_driver_entry;
use crate::pieces::push_actor;
use crate::threads::push_thread_entry;
use irq_base::{Entry, LineNo};
use text_row::TextRow;

/// The most bytes of an entry's row, the line feed among them.
pub const MAX_ENTRY_ROW: usize = 101;

/// Writes the row of an entry of the line: the line's number and the entry's words, with one space
/// between each two, ended by a line feed. What the row held before is gone.
///
/// The format has no row for a refused request that opened the line, nor for a mask refused as
/// busy.
pub fn entry_row(row: &mut TextRow, line: LineNo, entry: &Entry)
    requires { IsPrintable entry.now }
    ensures text { row.new ≡ entry_text line entry.now }
    ensures short { length row.new ≤ 101 }
{
    row.clear();
    row.push_number(line.0);
    push_actor(row, entry.actor());
    push_said(row, entry);
    row.push(b'\n');
}

// Adds what the entry is, and what it says.
fn push_said(row: &mut TextRow, entry: &Entry)
    requires { length row.old ≤ 22 }
    ensures text { row.new ≡ row.old ++ spaced (said_words entry.now) }
    ensures short { length row.new ≤ 100 }
{
    match *entry {
        Entry::Cpu(_, entry) => push_cpu_entry(row, entry),
        Entry::Thread(_, entry) => push_thread_entry(row, entry),
        Entry::Driver(_, entry) => push_driver_entry(row, entry),
        Entry::CpuCall(_, call) | Entry::ThreadCall(_, call) | Entry::DriverCall(_, call) => {
            push_call(row, call)
        }
    }
}
