//! The body of `main` over readers and writers of std, and arguments that can't be read.
use board_lines::MakesChainLine;
use callbacks::ByKind;
use irq_io::{MemSink, MemSource};
use irq_top::{Ended, Outcome, command, run};
use notifiers::ByProcessor;
use std::alloc::Global;
use std::env::Args;
use std::io::{self, Error, ErrorKind, Read, Write};
use std::sync::Wait;
use std::test::Fail;
use std::thread::Threads;

const BOARD: &str = "board 1
domain intc linear 4 latch
line 1 intc 2
device 1 1 direct
driver 1
request 1
";

const LOG: &str = "# irq 1 virq 1 intc:2
1 d1 request 1 - linked started no
";

const USAGE: &str =
    "usage: genirq run [--summary] | play [--summary] | check [--why] | gen N | chained | hotplug V EVENT... | sleep LINE...\n";

/// An argument that isn't UTF-8, and arguments that there is no memory for: the status, and the row
/// that is told.
const UNREAD: [(ErrorKind, u8, &str); 2] = [
    (ErrorKind::InvalidData, 2, USAGE),
    (ErrorKind::OutOfMemory, 7, "out of memory\n"),
];

#[test]
fn arguments_that_are_not_read(rt: HostRuntime) -> Result<(), Fail> {
    let alloc = rt.alloc();
    for (kind, status, row) in UNREAD {
        let mut src = MemSource::new(alloc, BOARD.as_bytes(), 100, &[])?;
        let (mut out, mut err) = (MemSink::new(alloc, &[], 9)?, MemSink::new(alloc, &[], 120)?);
        let args = Err(Error::from(kind));
        let outcome = command(
            &rt,
            alloc,
            args,
            &mut src,
            &mut out,
            &mut err,
            &mut ByKind,
            &ByKind,
            &MakesChainLine,
            &mut ByProcessor,
        );
        assert_eq!(rt; outcome.ending.status(), status);
        assert!(rt; out.written().is_empty() && err.written() == row.as_bytes());
    }
    Ok(())
}

/// A reader and writer of std whose calls all fail.
#[derive(Drop)]
struct Broken;

impl Read for Broken {
    fn read(&mut self, _buf: &mut [u8]) -> io::Result<usize> {
        Err(Error::from(ErrorKind::Other))
    }
}

impl Write for Broken {
    fn write(&mut self, _buf: &[u8]) -> io::Result<usize> {
        Err(Error::from(ErrorKind::StorageFull))
    }

    fn flush(&mut self) -> io::Result<()> {
        Err(Error::from(ErrorKind::StorageFull))
    }
}

/// What a play over this reader and these writers leaves.
fn play<T: Threads + Wait + Sync, R: Read + Drop, O: Write + Drop, E: Write + Drop>(
    rt: &T,
    alloc: Global,
    input: R,
    output: O,
    error: E,
) -> Result<Ended<Outcome, R, O, E>, Fail> {
    let mut args: Vec<String> = Vec::new(alloc);
    for word in ["genirq", "play"] {
        args.push(String::from_str(alloc, word)?)?;
    }
    let args: Args = args.into_iter();
    Ok(run(
        rt,
        alloc,
        Ok(args),
        input,
        output,
        error,
        &mut ByKind,
        &ByKind,
        &MakesChainLine,
        &mut ByProcessor,
    ))
}

#[test]
fn std_streams_give_their_status(rt: HostRuntime) -> Result<(), Fail> {
    let alloc = rt.alloc();
    let (out, err) = (Vec::new(alloc), Vec::new(alloc));
    let played = play(&rt, alloc, BOARD.as_bytes(), out, err)?;
    assert_eq!(rt; played.status, 0);
    let printed = played.output.map(|out| out.into_writer());
    assert!(rt; printed.is_some_and(|out: Vec<u8>| out.as_slice() == LOG.as_bytes()));
    assert!(rt; played.error.into_writer().is_empty());

    let err = Vec::new(alloc);
    let full = play(&rt, alloc, BOARD.as_bytes(), Broken, err)?;
    assert_eq!(rt; full.status, 5);
    let told = full.error.into_writer();
    assert_eq!(rt; told.as_slice(), b"write fault\n".as_slice());

    let out = Vec::new(alloc);
    let unread = play(&rt, alloc, Broken, out, Broken)?;
    assert_eq!(rt; unread.status, 4);
    Ok(())
}
