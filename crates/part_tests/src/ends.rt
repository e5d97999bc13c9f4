//! Sources and sinks over a slice and a list of std.
ghost use Rattle.std.specs.Prelude.{◌≡◌, ◌≤◌, IfOk, IfSome, take};

use irq_io::{FlushAnswer, ReadRefused, Sink, StdSink, StdSource, read_up_to, write_all};
use std::alloc::Global;
use std::io::BufWriter;
use std::test::Fail;

/// What a source and a sink over a slice and a list of std read and write.
#[test]
fn slices_and_lists(rt: HostRuntime) -> Result<(), Fail> {
    assert_eq!(rt;
        read_from_slice(rt.alloc(), b"abcd", 3)?.as_slice(),
        b"abc".as_slice()
    );
    for room in [0, 3, 100] {
        let held = written_to_list(rt.alloc(), room, b"abcde")?;
        assert!(rt; held.is_some_and(|held| held.as_slice() == b"abcde".as_slice()));
    }
    Ok(())
}

/// What a list has after bytes were written to it through a buffer with this room and flushed; none
/// if that failed.
fn written_to_list(alloc: Global, room: usize, bytes: &[u8]) -> Result<Option<Vec<u8>>, Fail>
    ensures { IfOk result (λ held. IfSome held (λ list. list.items ≡ bytes.now)) }
{
    let mut sink = StdSink::new(BufWriter::with_capacity(alloc, room, Vec::new(alloc))?);
    if write_all(&mut sink, bytes).is_ok() && sink.flush() == FlushAnswer::Done {
        return Ok(Some(sink.into_writer()));
    }
    Ok(None)
}

/// The first bytes of a slice, read from it as from a source.
fn read_from_slice(alloc: Global, bytes: &[u8], most: usize) -> Result<Vec<u8>, ReadRefused>
    requires { 1 ≤ most }
    ensures { IfOk result (λ came. came.items ≡ take most bytes.now) }
{
    read_up_to(alloc, &mut StdSource::new(bytes), most)
}
