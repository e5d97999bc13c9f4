//! Whose script is written, and the turns of statements on runs.
ghost use Rattle.std.specs.Prelude.{◌≡◌};
ghost use Rattle.board_stated.specs.Sections.{writer_after, turn_after, place_of_part};

use board_stated::Writer;
use board_words::Statement;
use irq_base::Part;

/// Whose script the calls after the statement belong to.
pub fn writer_after(writer: Writer, statement: &Statement) -> Writer
    ensures { result ≡ writer_after writer statement.now }
{
    match statement {
        Statement::Runs { dev, part } => Writer::Runs {
            dev: *dev,
            part: *part,
        },
        Statement::Driver(_) => Writer::Driver,
        Statement::Call(_) => writer,
        _ => Writer::Nobody,
    }
}

/// The turn of the last statement on runs, after the statement.
pub fn turn_after(turn: u64, statement: &Statement) -> u64
    ensures { result ≡ turn_after turn statement.now }
{
    match statement {
        Statement::Answers { dev, part, .. } => 4 * u64::from(dev.0) + place_of(*part),
        Statement::Runs { dev, part } => 4 * u64::from(dev.0) + (2 + place_of(*part)),
        _ => turn,
    }
}

/// The place of a part among those of a device.
fn place_of(part: Part) -> u64
    ensures { result ≡ place_of_part part }
{
    match part {
        Part::Primary => 0,
        Part::Thread => 1,
    }
}
