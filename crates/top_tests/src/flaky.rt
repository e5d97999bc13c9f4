//! A reader and a writer of std that fail at some of their calls. Each failure is counted, and no
//! call is tried again.
use irq_io::{FlushAnswer, ReadAnswer, Sink, Source, StdSink, StdSource, WriteAnswer};
use std::io::{BufWriter, Error, ErrorKind, Read, Write};
use std::test::Fail;

/// A reader or writer of std that fails at its first call, fails or takes nothing at its second,
/// and then works, two bytes a call. Flushes fail at every other call.
#[derive(Drop)]
struct Flaky {
    calls: u64,
    flushes: u64,
}

impl Read for Flaky {
    fn read(&mut self, buf: &mut [u8]) -> std::io::Result<usize> {
        self.calls = self.calls.saturating_add(1);
        match self.calls {
            1 => Err(Error::from(ErrorKind::Interrupted)),
            2 => Err(Error::from(ErrorKind::Other)),
            3 if buf.len() >= 2 => {
                buf[0] = b'h';
                buf[1] = b'i';
                Ok(2)
            }
            _ => Ok(0),
        }
    }
}

impl Write for Flaky {
    fn write(&mut self, buf: &[u8]) -> std::io::Result<usize> {
        self.calls = self.calls.saturating_add(1);
        match self.calls {
            1 => Err(Error::from(ErrorKind::Interrupted)),
            2 => Ok(0),
            _ => Ok(buf.len().min(2)),
        }
    }

    fn flush(&mut self) -> std::io::Result<()> {
        self.flushes = self.flushes.saturating_add(1);
        if self.flushes % 2 == 1 {
            return Err(Error::from(ErrorKind::Other));
        }
        Ok(())
    }
}

fn make_flaky() -> Flaky {
    Flaky {
        calls: 0,
        flushes: 0,
    }
}

#[test]
fn std_faults_are_counted(rt: HostRuntime) -> Result<(), Fail> {
    let mut source = StdSource::new(make_flaky());
    let mut buf = [0u8; 4];
    let reads = [
        ReadAnswer::Failed,
        ReadAnswer::Failed,
        ReadAnswer::Got(2),
        ReadAnswer::End,
    ];
    for wanted in reads {
        assert_eq!(rt; source.read(&mut buf), wanted);
    }
    assert_eq!(rt; buf.as_slice(), b"hi\0\0".as_slice());
    assert_eq!(rt; source.faults(), 2);

    let mut sink = StdSink::new(BufWriter::with_capacity(rt.alloc(), 0, make_flaky())?);
    for wanted in [
        WriteAnswer::Failed,
        WriteAnswer::Failed,
        WriteAnswer::Took(2),
    ] {
        assert_eq!(rt; sink.write(b"abc"), wanted);
    }
    for wanted in [FlushAnswer::Failed, FlushAnswer::Done, FlushAnswer::Failed] {
        assert_eq!(rt; sink.flush(), wanted);
    }
    assert_eq!(rt; sink.faults(), 4);
    Ok(())
}
