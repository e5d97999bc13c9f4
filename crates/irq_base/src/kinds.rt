//! The kinds of entries that a summary tells apart.
ghost use Rattle.std.specs.Prelude.{◌≡◌};
ghost use Rattle.irq_base.specs.EntryKinds.{kind_of_call, kind_of_cpu, kind_of_driver, kind_of_end};
ghost use Rattle.irq_base.specs.EntryKinds.{kind_of_entry, kind_of_thread};

use crate::entries::{CallEntry, CpuEntry, DriverEntry, Entry, Note, ThreadEntry};

/// The kind of an entry, among the kinds that a summary tells apart.
#[derive(Clone, Copy, PartialEq, Eq)]
pub enum EntryKind {
    /// A device asks for service.
    Ask,
    /// A processor takes an interrupt.
    Take,
    /// A primary handler is called.
    Begin,
    /// The handler returned. `served`: how many asks it served.
    Return { served: u32 },
    /// A thread's handler is called.
    ThreadBegin,
    /// The thread's handler returned. `served`: how many asks it served.
    ThreadReturn { served: u32 },
    /// A call served a device. `served`: how many asks it served.
    Serve { served: u32 },
    /// What may change the line's depth or the devices that are linked: a disable, an enable, a
    /// request, an unlink, or an end that found too many interrupts unhandled.
    Standing,
    /// Any other.
    Other,
}

/// The kind of the entry.
pub(crate) fn kind_of(entry: Entry) -> EntryKind
    ensures { result ≡ kind_of_entry entry }
{
    match entry {
        Entry::Cpu(_, entry) => kind_of_cpu(entry),
        Entry::Thread(_, entry) => kind_of_thread(entry),
        Entry::Driver(_, entry) => kind_of_driver(entry),
        Entry::CpuCall(_, call) | Entry::ThreadCall(_, call) | Entry::DriverCall(_, call) => {
            kind_of_call(call)
        }
    }
}

fn kind_of_cpu(entry: CpuEntry) -> EntryKind
    ensures { result ≡ kind_of_cpu entry }
{
    match entry {
        CpuEntry::Take { .. } => EntryKind::Take,
        CpuEntry::Begin { .. } => EntryKind::Begin,
        CpuEntry::Return { served, .. } => EntryKind::Return { served },
        CpuEntry::End { note, .. } => kind_of_end(note),
    }
}

fn kind_of_thread(entry: ThreadEntry) -> EntryKind
    ensures { result ≡ kind_of_thread entry }
{
    match entry {
        ThreadEntry::Begin => EntryKind::ThreadBegin,
        ThreadEntry::Return { served, .. } => EntryKind::ThreadReturn { served },
        ThreadEntry::Finish { .. } | ThreadEntry::Done => EntryKind::Other,
    }
}

fn kind_of_driver(entry: DriverEntry) -> EntryKind
    ensures { result ≡ kind_of_driver entry }
{
    match entry {
        DriverEntry::Ask { .. } => EntryKind::Ask,
        DriverEntry::Request { .. } => EntryKind::Standing,
        DriverEntry::Affinity { .. } | DriverEntry::Moment { .. } => EntryKind::Other,
    }
}

fn kind_of_call(call: CallEntry) -> EntryKind
    ensures { result ≡ kind_of_call call }
{
    match call {
        CallEntry::Disable | CallEntry::Enable { .. } | CallEntry::Unlink { .. } => {
            EntryKind::Standing
        }
        CallEntry::Serve { served, .. } => EntryKind::Serve { served },
        CallEntry::HardClear
        | CallEntry::Synced
        | CallEntry::Freed { .. }
        | CallEntry::Wake { .. }
        | CallEntry::Quiet { .. }
        | CallEntry::Arm { .. } => EntryKind::Other,
    }
}

/// The kind of an end with that note.
pub(crate) fn kind_of_end(note: Note) -> EntryKind
    ensures { result ≡ kind_of_end note }
{
    match note {
        Note::Killed => EntryKind::Standing,
        Note::Quiet | Note::Counted => EntryKind::Other,
    }
}
