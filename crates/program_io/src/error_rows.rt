//! Rows that say on an error sink what went wrong.
ghost use Rattle.std.specs.Prelude.{◌≡◌, ◌≤◌, ◌++◌, length};
ghost use Rattle.program_io.specs.ErrorRows.{Tells, fault_row, full_row, hung_row};

use board_text::BoardFault;
use irq_base::{Actor, LineNo};
use irq_io::{Sink, write_all};
use log_text::push_actor;
use text_row::TextRow;

/// Adds a fault of an input.
pub fn push_fault(row: &mut TextRow, fault: BoardFault)
    requires { length row.old ≤ 200 }
    ensures { row.new ≡ row.old ++ fault_row fault }
{
    row.push_bytes(b"board: line ");
    row.push_number(fault.at);
    row.push_bytes(b": ");
    row.push_bytes(fault.kind.text().as_bytes());
    row.push(b'\n');
}

/// Adds that the line's log is full, and how many entries it has.
pub fn push_full_log(row: &mut TextRow, line: LineNo, len: u32)
    requires { length row.old ≤ 200 }
    ensures { row.new ≡ row.old ++ full_row line len }
{
    row.push_bytes(b"log full: line ");
    row.push_number(line.0);
    row.push_bytes(b" at ");
    row.push_number(len);
    row.push_bytes(b" entries\n");
}

/// Adds that the actor hangs on the line.
pub fn push_hung(row: &mut TextRow, line: LineNo, actor: Actor)
    requires { length row.old ≤ 200 }
    ensures { row.new ≡ row.old ++ hung_row line actor }
{
    row.push_bytes(b"hung: line ");
    row.push_number(line.0);
    push_actor(row, actor);
    row.push(b'\n');
}

/// Writes the row, and hands it on.
pub fn tell_row<E: Sink>(err: &mut E, row: &[u8])
    ensures { Tells row.now (E.written err.old) (E.written err.new) (E.kept err.new)
        (E.faults err.old) (E.faults err.new) }
{
    if let Ok(()) = write_all(err, row) {
        let _ = err.flush();
    }
}
