//! Sinks over std's writers.
ghost use Rattle.std.specs.Prelude.{◌≡◌, [], IfOk};
ghost use Rattle.std.specs.Io.Buffered.{writer_buffer, writer_contents, writer_inner};

use irq_base::NoMemory;
use irq_io::StdSink;
use std::alloc::Global;
use std::io::{BufWriter, Write};

/// The size of a sink's buffer, in bytes.
const BUFFER: usize = 64 * 1024;

/// A sink over the writer, with a buffer before it. The only error is `NoMemory`.
pub fn with_buffer<W: Write + Drop>(alloc: Global, writer: W) -> Result<StdSink<W>, NoMemory>
    ensures inner { IfOk result (λ sink. writer_inner sink.writer ≡ writer) }
    ensures empty { IfOk result (λ sink. writer_buffer sink.writer ≡ []) }
    ensures counts { IfOk result (λ sink. sink.faults ≡ 0) }
{
    match BufWriter::with_capacity(alloc, BUFFER, writer) {
        Ok(writer) => Ok(StdSink::new(writer)),
        Err(_) => Err(NoMemory),
    }
}

/// A sink over the writer, without a buffer. It takes no memory.
pub fn without_buffer<W: Write + Drop>(alloc: Global, writer: W) -> StdSink<W>
    ensures inner { writer_inner result.writer ≡ writer }
    ensures empty { writer_buffer result.writer ≡ [] }
    ensures counts { result.faults ≡ 0 }
{
    match BufWriter::with_capacity(alloc, 0, writer) {
        Ok(writer) => StdSink::new(writer),
        Err(_) => unreachable!(),
    }
}

/// What a sink over a writer of std keeps back is all that its writer doesn't have: with nothing
/// kept back the writer has all that was written.
pub fn emptied_is_handed_on<W: Write + Drop>(sink: &StdSink<W>)
    ensures { writer_buffer sink.now.writer ≡ []
        → writer_contents W.contents sink.now.writer ≡ W.contents (writer_inner sink.now.writer) }
{}
