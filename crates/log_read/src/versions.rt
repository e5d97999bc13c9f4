//! Which rows a log may have, by the version of its board.
ghost use Rattle.std.specs.Prelude.{◌≡◌, false, true};
ghost use Rattle.log_read.specs.Versions.{is_new_call, may_have, needs_runs};

use board_def::Board;
use irq_base::{CallEntry, DriverEntry, Entry, ThreadEntry};

/// Whether the log of the board may have the entry's row. Only a board of version 3 has rows of
/// calls by handlers and threads, rows of its own calls, and rows of an ask or of a thread's return
/// with a last word that others lack.
#[inline(always)]
pub fn may_have(board: &Board, entry: &Entry) -> bool
    ensures { result ≡ may_have board.now.version entry.now }
{
    is_old(entry) || board.version() >= 3 || !needs_runs(*entry)
}

/// Whether a test or two tell that logs of each version have the entry's row: so of most rows.
#[inline(always)]
fn is_old(entry: &Entry) -> bool
    ensures { result ≡ true → needs_runs entry.now ≡ false }
{
    matches!(
        *entry,
        Entry::Cpu(_, _)
            | Entry::Thread(
                _,
                ThreadEntry::Begin | ThreadEntry::Finish { .. } | ThreadEntry::Done
            )
    )
}

/// Whether the entry's row is one of version 3 alone.
#[inline(never)]
fn needs_runs(entry: Entry) -> bool
    ensures { result ≡ needs_runs entry }
{
    match entry {
        Entry::Cpu(_, _) => false,
        Entry::Thread(_, ThreadEntry::Return { handled, served }) => handled != (served > 0),
        Entry::Driver(_, DriverEntry::Ask { edge, .. }) => !edge,
        Entry::Thread(_, _) | Entry::Driver(_, _) => false,
        Entry::CpuCall(_, _) | Entry::ThreadCall(_, _) => true,
        Entry::DriverCall(_, call) => is_new_call(call),
    }
}

fn is_new_call(call: CallEntry) -> bool
    ensures { result ≡ is_new_call call }
{
    matches!(
        call,
        CallEntry::Wake { .. }
            | CallEntry::Quiet { .. }
            | CallEntry::Arm { .. }
            | CallEntry::Serve { .. }
    )
}
