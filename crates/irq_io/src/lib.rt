//! The sources and sinks of the program: where its bytes come from and go to, with counts of
//! faults.
//!
//! A `Source` gives bytes and a `Sink` takes them. Each counts its faults: the count rises exactly
//! with an answer `Failed`. So whoever lends a source or a sink to a call sees afterwards whether
//! it failed in that call. Those in memory tell their content to contracts; those over std's `Read`
//! and `Write` tell what the reader or writer tells. A write may keep back what it took; after a
//! flush that is `Done` nothing is kept back.
#![tactic(auto)]

mod listed;
pub mod mem_sink;
pub mod mem_source;
pub mod sinks;
pub mod sources;
pub mod std_sink;
pub mod std_source;
pub mod whole;

pub use mem_sink::MemSink;
pub use mem_source::MemSource;
pub use sinks::{FlushAnswer, Sink, WriteAnswer};
pub use sources::{ReadAnswer, Source};
pub use std_sink::StdSink;
pub use std_source::StdSource;
pub use whole::{ReadRefused, WriteFailed, read_up_to, write_all};
