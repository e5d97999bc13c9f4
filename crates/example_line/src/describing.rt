//! Entries in a few words.
use irq_base::{CpuEntry, DriverEntry, Entry};

/// What the entry says, of those that this program meets.
pub fn said(entry: &Entry) -> &'static str {
    match entry {
        Entry::Driver(_, DriverEntry::Request { .. }) => "the driver requests the line",
        Entry::Driver(_, DriverEntry::Ask { .. }) => "the device asks",
        Entry::Cpu(_, CpuEntry::Take { .. }) => "the processor takes the interrupt",
        Entry::Cpu(_, CpuEntry::Begin { .. }) => "a run of the handler begins",
        Entry::Cpu(_, CpuEntry::Return { .. }) => "the handler has answered",
        Entry::Cpu(_, CpuEntry::End { .. }) => "the flow is over",
        _ => "another entry",
    }
}
