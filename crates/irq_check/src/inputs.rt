//! An input is read and judged.
ghost use Rattle.std.specs.Prelude.{IfOk};
ghost use Rattle.irq_io.specs.Faults.{Counts};
ghost use Rattle.irq_check.specs.Checked.{IsPrintableAnswer};
ghost use Rattle.irq_check.specs.Ends.{IsSaid, ReadsInput, is_read_fault};

use crate::answers::Judgement;
use crate::checking::{LONGEST_INPUT, check_bytes};
use irq_io::{Source, read_up_to};
use line_makers::MakesDomainLine;
use program_io::InputRefused;
use std::alloc::Global;

/// Reads the source to its end, or one byte past the longest input, and judges what came, with
/// lines of the maker; with `why` it is found out too why the log is unlawful, if it is.
///
/// # Errors
///
/// `Fault` with the first fault of what came; `ReadFault` if a read failed, exactly if the source's
/// count of faults rose; `NoMemory` if memory was refused.
pub fn check_input<S: Source, M: MakesDomainLine>(
    alloc: Global,
    why: bool,
    src: &mut S,
    maker: &M,
) -> Result<Judgement, InputRefused>
    ensures content { ReadsInput why (S.left src.old) (S.left src.new) result }
    ensures said { IfOk result (λ answer. IsSaid why (S.left src.old) answer) }
    ensures printable { IfOk result IsPrintableAnswer }
    ensures cause { Counts (S.faults src.old) (S.faults src.new) (is_read_fault result) }
{
    let bytes = read_up_to(alloc, src, LONGEST_INPUT + 1)?;
    let answer = check_bytes(alloc, bytes.as_slice(), why, maker)?;
    Ok(answer)
}
