//! The row that says on the error sink how a call ended.
ghost use Rattle.std.specs.Prelude.{◌≡◌, ◌≤◌, ◌++◌, [], codes, decimal, length};
ghost use Rattle.explore_top.specs.Ending.{error_text};

use crate::ending::Ending;
use irq_base::LineNo;
use program_io::push_fault;
use text_row::TextRow;

/// Writes the row that says how the call ended, empty if what was asked is printed. What the row
/// held before is gone.
pub fn error_row(row: &mut TextRow, ending: Ending)
    ensures { row.new ≡ error_text ending }
{
    row.clear();
    match ending {
        Ending::Done | Ending::Never => {}
        Ending::Usage => {
            row.push_bytes(b"usage: genirq-explore [--states N] [--line L | [--play] ROW]\n");
        }
        Ending::Board(fault) => push_fault(row, fault),
        Ending::NotThere => row.push_bytes(b"board: line 0: not there\n"),
        Ending::ReadFault => row.push_bytes(b"read fault\n"),
        Ending::WriteFault => row.push_bytes(b"write fault\n"),
        Ending::NoMemory => row.push_bytes(b"out of memory\n"),
        Ending::Cut { line, states } => push_cut(row, line, states),
        Ending::NoPlay => row.push_bytes(b"play: none was found\n"),
    }
}

/// Adds that the line has more states than were to be visited.
fn push_cut(row: &mut TextRow, line: LineNo, states: u32)
    requires { row.old ≡ [] }
    ensures { row.new ≡ codes "states: line " ++ decimal line.0 ++ codes " has more than "
        ++ decimal states ++ codes "\n" }
{
    row.push_bytes(b"states: line ");
    row.push_number(line.0);
    row.push_bytes(b" has more than ");
    row.push_number(states);
    row.push(b'\n');
}
