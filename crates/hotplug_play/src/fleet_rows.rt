//! The row of a placing or of an event.
ghost use Rattle.std.specs.Prelude.{◌≡◌, ◌+◌, ◌≤◌, ◌++◌, length, codes, decimal};
ghost use Rattle.hotplug_play.specs.Rows.{off_text, on_text, row_text};

use irq_hotplug::{FleetRow, OffAnswer, OnAnswer};
use text_row::TextRow;

/// Adds a space and the number.
fn push_number(row: &mut TextRow, number: u32)
    requires { length row.old ≤ 300 }
    ensures text { row.new ≡ row.old ++ codes " " ++ decimal number }
    ensures grows { length row.new ≤ length row.old + 11 }
{
    row.push(b' ');
    row.push_number(number);
}

/// Adds what becomes of a processor that was to go offline.
fn push_off(row: &mut TextRow, answer: OffAnswer)
    requires { length row.old ≤ 200 }
    ensures text { row.new ≡ row.old ++ off_text answer }
    ensures grows { length row.new ≤ length row.old + 40 }
{
    match answer {
        OffAnswer::Ok => row.push_bytes(b" ok"),
        OffAnswer::NotThere => row.push_bytes(b" refused not-there"),
        OffAnswer::NotOnline => row.push_bytes(b" refused not-online"),
        OffAnswer::LastOne => row.push_bytes(b" refused last"),
        OffAnswer::NoVector { line } => {
            row.push_bytes(b" refused no-vector ");
            row.push_number(line.0);
        }
    }
}

/// Adds what becomes of a processor that was to come online.
fn push_on(row: &mut TextRow, answer: OnAnswer)
    requires { length row.old ≤ 200 }
    ensures text { row.new ≡ row.old ++ on_text answer }
    ensures grows { length row.new ≤ length row.old + 40 }
{
    match answer {
        OnAnswer::Ok => row.push_bytes(b" ok"),
        OnAnswer::NotThere => row.push_bytes(b" refused not-there"),
        OnAnswer::IsOnline => row.push_bytes(b" refused is-online"),
    }
}

/// Writes the row. What the row held before is gone.
pub fn fleet_row(row: &mut TextRow, said: FleetRow)
    ensures { row.new ≡ row_text said }
{
    row.clear();
    match said {
        FleetRow::Placed {
            line,
            vector,
            queue,
            ..
        } => {
            row.push_bytes(b"# vector ");
            row.push_number(line.0);
            push_number(row, vector.cpu.0);
            push_number(row, vector.number);
            push_number(row, queue);
        }
        FleetRow::Unplaced { line } => {
            row.push_bytes(b"# vector ");
            row.push_number(line.0);
            row.push_bytes(b" none");
        }
        FleetRow::Off { cpu, answer } => {
            row.push_bytes(b"# off ");
            row.push_number(cpu.0);
            push_off(row, answer);
        }
        FleetRow::On { cpu, answer } => {
            row.push_bytes(b"# on ");
            row.push_number(cpu.0);
            push_on(row, answer);
        }
    }
    row.push(b'\n');
}
