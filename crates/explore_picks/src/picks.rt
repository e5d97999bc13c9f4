//! Rows of picks.
ghost use Rattle.std.specs.Prelude.{◌≡◌, ◌≤◌, ◌*◌, ◌+◌, ◌++◌, drop, length, take};
ghost use Rattle.explore_picks.specs.Rows.{pick_text, picks_row, picks_text};
ghost use Rattle.irq_io.specs.Faults.{Counts};
ghost use Rattle.irq_io.specs.Whole.{WritesAll, writing_failed};

use irq_base::Actor;
use irq_io::{Sink, WriteFailed, write_all};
use text_row::TextRow;

/// How many picks stand in a row.
const PICKS: usize = 24;

/// Adds a pick to the row.
fn push_pick(row: &mut TextRow, pick: Actor)
    requires { length row.old ≤ 308 }
    ensures text { row.new ≡ row.old ++ pick_text pick }
    ensures grows { length row.new ≤ length row.old + 12 }
{
    match pick {
        Actor::Thread(dev) => {
            row.push_bytes(b" t");
            row.push_number(dev.0);
        }
        Actor::Cpu(cpu) => {
            row.push_bytes(b" c");
            row.push_number(cpu.0);
        }
        Actor::Driver(driver) => {
            row.push_bytes(b" d");
            row.push_number(driver.0);
        }
    }
}

/// Makes the row of these picks.
fn picks_row(row: &mut TextRow, picks: &[Actor])
    requires { length picks.now ≤ 24 }
    ensures { row.new ≡ picks_row picks.now }
{
    row.clear();
    row.push_bytes(b"# picks");
    for pick in picks {
        push_pick(row, *pick);
    }
    row.push(b'\n');
}

/// The picks of row `place`.
fn picks_of(picks: &[Actor], place: usize) -> &[Actor]
    requires { 24 * place ≤ length picks.now }
    ensures picks { result.now ≡ take 24 (drop (24 * place) picks.now) }
    ensures few { length result.now ≤ 24 }
{
    let left = &picks[PICKS * place..];
    if left.len() > PICKS {
        &left[..PICKS]
    } else {
        left
    }
}

/// Prints the picks in rows of at most 24.
pub fn print_picks<O: Sink>(out: &mut O, picks: &[Actor]) -> Result<(), WriteFailed>
    requires { length picks.now ≤ 65536 }
    ensures content { WritesAll (O.written out.old) (O.written out.new) (picks_text picks.now)
        result }
    ensures cause { Counts (O.faults out.old) (O.faults out.new) (writing_failed result) }
{
    let mut row = TextRow::new();
    for place in 0..(picks.len() + 23) / PICKS {
        picks_row(&mut row, picks_of(picks, place));
        write_all(out, row.bytes())?;
    }
    Ok(())
}
