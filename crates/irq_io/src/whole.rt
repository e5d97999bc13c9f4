//! Reading up to a bound, and writing to the end, in as many pieces as it takes.
ghost use Rattle.std.specs.Prelude.{◌≡◌, ◌≤◌, [], IfOk, Ok, OnErr, vec_len};
ghost use Rattle.irq_io.specs.Faults.{Counts};
ghost use Rattle.irq_io.specs.Whole.{TakesAtMost, TakesUpTo, WritesAll, met_fault, writing_failed};

use crate::sinks::{Sink, WriteAnswer};
use crate::sources::{ReadAnswer, Source};
use std::alloc::{AllocError, Global};
use thiserror::Error;

/// Why a reading gave nothing.
#[derive(Clone, Copy, Debug, PartialEq, Eq, Error)]
pub enum ReadRefused {
    /// A read failed.
    #[error("a read failed")]
    Fault,
    /// Memory was needed and refused.
    #[error("out of memory")]
    NoMemory,
}

impl From<AllocError> for ReadRefused {
    ghost use Rattle.std.specs.Prelude.{◌≡◌};
    ghost use Rattle.irq_io.specs.declared.whole.ReadRefused.TheVariants.{NoMemory};

    ghost from_gives = { λ _ refused. refused ≡ NoMemory };

    fn from(_refused: AllocError) -> ReadRefused {
        ReadRefused::NoMemory
    }
}

/// A write or a flush failed. A beginning of what was to be written has been taken.
#[derive(Clone, Copy, Debug, PartialEq, Eq, Error)]
#[error("a write failed")]
pub struct WriteFailed;

/// The size of the pieces in which a source is read, in bytes.
const PIECE: usize = 64 * 1024;

/// Reads what is left of the source, but at most `most` bytes (at least 1). Fewer than `most` bytes
/// come only from a source that answered `End`. If a read fails or memory is refused, the bytes
/// that came are lost. The count of faults rises exactly with `Fault`.
pub fn read_up_to<S: Source>(
    alloc: Global,
    source: &mut S,
    most: usize,
) -> Result<Vec<u8>, ReadRefused>
    requires { 1 ≤ most }
    ensures bound { IfOk result (λ v. vec_len v ≤ most) }
    ensures content { IfOk result (λ v. TakesUpTo most (S.left source.old) (S.left source.new)
        v.items) }
    ensures refused { OnErr result (TakesAtMost most (S.left source.old) (S.left source.new)) }
    ensures cause { Counts (S.faults source.old) (S.faults source.new) (met_fault result) }
{
    let mut all = Vec::new(alloc);
    let mut buf = [0u8; PIECE];
    while all.len() < most {
        let room = PIECE.min(most - all.len());
        let piece = &mut buf[..room];
        match source.read(piece) {
            ReadAnswer::Got(count) => all.extend_from_slice(&piece[..count])?,
            ReadAnswer::End => return Ok(all),
            ReadAnswer::Failed => return Err(ReadRefused::Fault),
        }
    }
    Ok(all)
}

/// Writes the bytes: what a write didn't take is written again, until all is taken. Without bytes
/// there is no write. After a fault a beginning of the bytes has been taken. The count of faults
/// rises exactly with the error.
pub fn write_all<O: Sink>(sink: &mut O, bytes: &[u8]) -> Result<(), WriteFailed>
    ensures nothing { bytes.now ≡ [] → (result ≡ Ok tt) × (sink.new ≡ sink.old) }
    ensures content { WritesAll (O.written sink.old) (O.written sink.new) bytes.now result }
    ensures cause { Counts (O.faults sink.old) (O.faults sink.new) (writing_failed result) }
{
    if bytes.is_empty() {
        return Ok(());
    }
    // mostly one write takes all
    match sink.write(bytes) {
        WriteAnswer::Took(count) if count < bytes.len() => write_on(sink, &bytes[count..]),
        WriteAnswer::Took(_) => Ok(()),
        WriteAnswer::Failed => Err(WriteFailed),
    }
}

/// The same, in as many writes as it takes.
#[inline(never)]
fn write_on<O: Sink>(sink: &mut O, bytes: &[u8]) -> Result<(), WriteFailed>
    ensures content { WritesAll (O.written sink.old) (O.written sink.new) bytes.now result }
    ensures cause { Counts (O.faults sink.old) (O.faults sink.new) (writing_failed result) }
{
    let mut done = 0;
    while done < bytes.len() {
        match sink.write(&bytes[done..]) {
            WriteAnswer::Took(count) => done += count,
            WriteAnswer::Failed => return Err(WriteFailed),
        }
    }
    Ok(())
}
