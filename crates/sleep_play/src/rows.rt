//! The rows of the marks.
ghost use Rattle.std.specs.Prelude.{◌≡◌};
ghost use Rattle.sleep_play.specs.Rows.{asleep_text, wake_text};

use irq_base::LineNo;
use text_row::TextRow;

/// Writes the row that says that the machine is asleep. What the row held before is gone.
pub fn asleep_row(row: &mut TextRow)
    ensures { row.new ≡ asleep_text }
{
    row.clear();
    row.push_bytes(b"# asleep\n");
}

/// Writes the row that says that the machine wakes, by an interrupt of this line. What the row held
/// before is gone.
pub fn wake_row(row: &mut TextRow, line: Option<LineNo>)
    ensures { row.new ≡ wake_text line }
{
    row.clear();
    row.push_bytes(b"# wake ");
    match line {
        Some(line) => row.push_number(line.0),
        None => row.push_bytes(b"none"),
    }
    row.push(b'\n');
}
