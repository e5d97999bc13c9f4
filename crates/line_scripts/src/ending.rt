//! Which entry of a call is its last.
ghost use Rattle.std.specs.Prelude.{◌≡◌};
ghost use Rattle.irq_model.specs.Kinds.{is_hard_clear, is_synced};
ghost use Rattle.line_scripts.specs.Endings.{completes, ends_free, finishes_free};

use irq_base::{Call, CallEntry, Entry, UnlinkAnswer};

/// Whether this entry, one of the call's, completes the call. A disable or a synchronisation ends
/// with `Synced`, `disable_hardirq` with `HardClear`, a free with `Freed` or with an unlink that
/// found nothing; any other call makes one entry.
pub fn completes(call: Call, entry: &Entry) -> bool
    ensures { result ≡ completes call entry.now }
{
    match call {
        Call::Disable | Call::Sync => is_synced(entry),
        Call::DisableHard => is_hard_clear(entry),
        Call::Free { .. } => ends_free(entry),
        Call::Ask { .. }
        | Call::Request { .. }
        | Call::DisableNosync
        | Call::Enable
        | Call::Affinity { .. }
        | Call::Moment { .. }
        | Call::SyncHard
        | Call::Wake { .. }
        | Call::Quiet { .. }
        | Call::Arm { .. }
        | Call::Serve { .. } => true,
    }
}

/// Whether the entry is a hard clear.
fn is_hard_clear(entry: &Entry) -> bool
    ensures { result ≡ is_hard_clear entry.now }
{
    match *entry {
        Entry::CpuCall(_, call) | Entry::ThreadCall(_, call) | Entry::DriverCall(_, call) => {
            matches!(call, CallEntry::HardClear)
        }
        Entry::Cpu(_, _) | Entry::Thread(_, _) | Entry::Driver(_, _) => false,
    }
}

/// Whether the entry is the last step of a synchronisation.
fn is_synced(entry: &Entry) -> bool
    ensures { result ≡ is_synced entry.now }
{
    match *entry {
        Entry::CpuCall(_, call) | Entry::ThreadCall(_, call) | Entry::DriverCall(_, call) => {
            matches!(call, CallEntry::Synced)
        }
        Entry::Cpu(_, _) | Entry::Thread(_, _) | Entry::Driver(_, _) => false,
    }
}

/// Whether the entry ends a free.
fn ends_free(entry: &Entry) -> bool
    ensures { result ≡ ends_free entry.now }
{
    match *entry {
        Entry::CpuCall(_, call) | Entry::ThreadCall(_, call) | Entry::DriverCall(_, call) => {
            ends_free_call(call)
        }
        Entry::Cpu(_, _) | Entry::Thread(_, _) | Entry::Driver(_, _) => false,
    }
}

/// Whether the step ends a free, whoever makes it.
fn ends_free_call(call: CallEntry) -> bool
    ensures { result ≡ finishes_free call }
{
    match call {
        CallEntry::Freed { .. } => true,
        CallEntry::Unlink { answer, .. } => answer == UnlinkAnswer::NotThere,
        CallEntry::Disable
        | CallEntry::HardClear
        | CallEntry::Synced
        | CallEntry::Enable { .. }
        | CallEntry::Wake { .. }
        | CallEntry::Quiet { .. }
        | CallEntry::Arm { .. }
        | CallEntry::Serve { .. } => false,
    }
}
