//! The words of the interrupt layer: what a line is made of, what its drivers ask of it, and the
//! entries of its history.
//!
//! Everything here is plain data; contracts see the list types as lists. One entry stands for one
//! hold of a line's lock in this model (`lock` of `struct irq_desc`, `include/linux/irqdesc.h`;
//! Linux calls handlers, wakes threads and waits for them without it). `History` is the list of
//! these entries, the oldest first.
#![tactic(auto)]

pub mod calls;
pub mod chip;
mod codes;
pub mod devices;
pub mod domains;
pub mod entries;
pub mod histories;
pub mod kinds;
pub mod lines;
pub mod lists;
pub mod memory;
pub mod numbers;
pub mod packed;
mod parts;
pub mod reporting;
pub mod waiting;

pub use calls::{Call, CallList, Flags, RunCallList, ToldList};
pub use chip::Chip;
pub use devices::{Answer, DeviceDef, DeviceList, Kind, Part, Run, ToldAnswer};
pub use domains::{ControllerKind, DomainDef, MapKind, Path};
pub use entries::{
    Actor, AffinityAnswer, CallEntry, CpuEntry, DriverEntry, EnableAnswer, Entry, Errno,
    LinkAnswer, Note, Opened, Resend, TakeAnswer, ThreadEntry, UnlinkAnswer, Way,
};
pub use histories::History;
pub use kinds::EntryKind;
pub use lines::{FlowKind, LineDef, Trigger};
pub use lists::ItemList;
pub use memory::NoMemory;
pub use numbers::{CpuNo, DevNo, DriverNo, LineNo};
pub use packed::Packed;
pub use reporting::{LineReport, Logs, Reports};
pub use waiting::{Blocks, WaitFor};
