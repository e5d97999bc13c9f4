//! The row that says on the error sink how a call ended.
ghost use Rattle.std.specs.Prelude.{◌≡◌};
ghost use Rattle.irq_top.specs.Ending.{error_text};

use crate::ending::Ending;
use irq_line::StepRefused;
use program_io::{push_fault, push_full_log, push_hung};
use text_row::TextRow;

/// Writes the row that says how the call ended, empty if the work was done, or a log is unlawful or
/// malformed. What the row held before is gone.
pub fn error_row(row: &mut TextRow, ending: Ending)
    ensures { row.new ≡ error_text ending }
{
    row.clear();
    match ending {
        Ending::Done | Ending::Unlawful { .. } | Ending::Malformed { .. } => {}
        Ending::Hung { line, actor } => push_hung(row, line, actor),
        Ending::Usage => {
            row.push_bytes(
                b"usage: genirq run [--summary] | play [--summary] | check [--why] | gen N",
            );
            row.push_bytes(b" | chained | hotplug V EVENT... | sleep LINE...\n");
        }
        Ending::Board(fault) => push_fault(row, fault),
        Ending::ReadFault => row.push_bytes(b"read fault\n"),
        Ending::WriteFault => row.push_bytes(b"write fault\n"),
        Ending::Step(StepRefused::Full { line, len }) => push_full_log(row, line, len),
        Ending::Step(StepRefused::NoMemory) | Ending::NoMemory => {
            row.push_bytes(b"out of memory\n")
        }
    }
}
