//! The top call over a source and sinks in memory, one of whose calls fails. The rows are written
//! by hand.
use board_lines::MakesChainLine;
use callbacks::ByKind;
use irq_base::{NoMemory, Reports};
use irq_io::{MemSink, MemSource};
use irq_top::irq_main;
use notifiers::ByProcessor;
use std::alloc::Global;
use std::sync::Wait;
use std::test::Fail;
use std::thread::Threads;
use workers::NoGate;

const BOARD: &str = "board 1
domain intc linear 4 latch
line 1 intc 2
device 1 1 direct
driver 1
request 1
ask 1
free 1
";

const LOG: &str = "# irq 1 virq 1 intc:2
1 d1 request 1 - linked started no
1 d1 ask 1
1 c0 take line handle
1 c0 begin 1
1 c0 return 1 handled 1
1 c0 end leave asis quiet
1 d1 unlink 1 last
1 d1 hardclear
1 d1 freed 1
";

/// How many bytes of the log stand before each of its rows, and in all.
const CUTS: [usize; 11] = [0, 22, 57, 68, 90, 103, 127, 153, 172, 187, 200];

/// The sizes of the source and the sinks, and which of their calls fail: the numbers of the read,
/// of the write and the flush of the output, and of the write of the error row, counted from 1; 0:
/// none.
#[derive(Clone, Copy)]
struct Ends {
    piece: usize,
    room: usize,
    read: u32,
    write: u32,
    flush: u32,
    error: u32,
}

const SOUND: Ends = Ends {
    piece: 10,
    room: 10_000,
    read: 0,
    write: 0,
    flush: 0,
    error: 0,
};

/// What a call should give: the status, the number of entries of its reports, if it has some, the
/// output and the error row.
#[derive(Clone, Copy)]
struct Wanted<'a> {
    status: u8,
    entries: Option<usize>,
    out: &'a [u8],
    err: &'a [u8],
}

/// How many entries the report has, if there is one.
fn entries_of(reports: &Reports) -> Option<usize> {
    reports.get(0).map(|report| report.history.len())
}

/// Whether a call with this word over this source and these sinks gives what is wanted.
fn comes_to<R: Threads + Wait + Sync>(
    rt: &R,
    alloc: Global,
    word: &str,
    text: &[u8],
    ends: Ends,
    wanted: Wanted<'_>,
) -> Result<bool, NoMemory> {
    let mut src = MemSource::new(alloc, text, ends.piece.max(1), &[ends.read])?;
    let mut out = MemSink::with_failing_flushes(alloc, &[ends.write], &[ends.flush], ends.room)?;
    let mut err = MemSink::new(alloc, &[ends.error], 120)?;
    let outcome = irq_main(
        rt,
        alloc,
        &[word],
        &mut src,
        &mut out,
        &mut err,
        &NoGate,
        &mut ByKind,
        &ByKind,
        &MakesChainLine,
        &mut ByProcessor,
    );
    let ended = outcome.ending.status() == wanted.status
        && entries_of(&outcome.reports) == wanted.entries;
    Ok(ended && out.written() == wanted.out && err.written() == wanted.err)
}

/// Each of the eleven reads fails in turn, of `play` and of `check`.
#[test]
fn failing_reads(rt: HostRuntime) -> Result<(), Fail> {
    let wanted = Wanted {
        status: 4,
        entries: None,
        out: b"",
        err: b"read fault\n",
    };
    for read in 1..=11 {
        let ends = Ends { read, ..SOUND };
        for word in ["play", "check"] {
            let came = comes_to(&rt, rt.alloc(), word, BOARD.as_bytes(), ends, wanted)?;
            assert!(rt; came, "{word}, read {read}");
        }
    }
    Ok(())
}

/// Each write of a row fails in turn, and at last the flush. At the third write the row on the
/// error sink fails too.
#[test]
fn failing_writes(rt: HostRuntime) -> Result<(), Fail> {
    for (number, cut) in (1u32..).zip(CUTS) {
        let ends = Ends {
            write: if number < 11 { number } else { 0 },
            flush: if number < 11 { 0 } else { 1 },
            error: if number == 3 { 1 } else { 0 },
            ..SOUND
        };
        let wanted = Wanted {
            status: 5,
            entries: Some(9),
            out: LOG.as_bytes().get(..cut).ok_or("a cut beyond the log")?,
            err: if number == 3 { b"" } else { b"write fault\n" },
        };
        let came = comes_to(&rt, rt.alloc(), "play", BOARD.as_bytes(), ends, wanted)?;
        assert!(rt; came, "write {number}");
    }
    Ok(())
}

/// Pieces of one byte are read, and a sink is full within a row.
#[test]
fn small_sinks(rt: HostRuntime) -> Result<(), Fail> {
    let whole = Wanted {
        status: 0,
        entries: Some(9),
        out: LOG.as_bytes(),
        err: b"",
    };
    let bytes = Ends { piece: 1, ..SOUND };
    assert!(rt; comes_to(&rt, rt.alloc(), "play", BOARD.as_bytes(), bytes, whole)?);
    let cut = Wanted {
        status: 5,
        out: LOG.as_bytes().get(..30).ok_or("a short log")?,
        err: b"write fault\n",
        ..whole
    };
    let full = Ends { room: 30, ..SOUND };
    assert!(rt; comes_to(&rt, rt.alloc(), "play", BOARD.as_bytes(), full, cut)?);
    let law = Wanted {
        status: 5,
        entries: None,
        out: b"law",
        err: b"write fault\n",
    };
    let full = Ends { room: 3, ..SOUND };
    assert!(rt; comes_to(&rt, rt.alloc(), "check", b"board 1\n---\n", full, law)?);
    Ok(())
}
