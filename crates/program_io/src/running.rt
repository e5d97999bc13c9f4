//! What is left of a program's streams when it has ended.

use irq_io::{StdSink, StdSource};
use std::io::{Read, Write};

/// What a run of a program leaves: its exit status, how it ended, and its streams.
#[derive(Drop)]
pub struct Ended<X: Drop, R: Read + Drop, O: Write + Drop, E: Write + Drop> {
    /// The exit status.
    pub status: u8,
    /// How it ended.
    pub end: X,
    /// The input.
    pub input: StdSource<R>,
    /// The output, unless there was no memory for its buffer.
    pub output: Option<StdSink<O>>,
    /// The error stream, which has no buffer.
    pub error: StdSink<E>,
}
