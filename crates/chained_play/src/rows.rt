//! The rows of enters and exits.
ghost use Rattle.std.specs.Prelude.{◌≡◌};
ghost use Rattle.chained_play.specs.Rows.{enter_text, exit_text};

use irq_base::CpuNo;
use text_row::TextRow;

/// Writes the row of an enter. What the row held before is gone.
pub fn enter_row(row: &mut TextRow, cpu: CpuNo, status: u32)
    ensures { row.new ≡ enter_text cpu.0 status }
{
    row.clear();
    row.push_bytes(b"0 c");
    row.push_number(cpu.0);
    row.push_bytes(b" enter ");
    row.push_number(status);
    row.push(b'\n');
}

/// Writes the row of an exit. What the row held before is gone.
pub fn exit_row(row: &mut TextRow, cpu: CpuNo)
    ensures { row.new ≡ exit_text cpu.0 }
{
    row.clear();
    row.push_bytes(b"0 c");
    row.push_number(cpu.0);
    row.push_bytes(b" exit\n");
}
