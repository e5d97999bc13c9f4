//! Prints where lines are placed, row by row.
ghost use Rattle.irq_io.specs.Faults.{Counts};
ghost use Rattle.irq_io.specs.Whole.{WritesAll, writing_failed};
ghost use Rattle.hotplug_play.specs.Texts.{fleet_text};

use crate::fleet_row;
use irq_hotplug::FleetRow;
use irq_io::{Sink, WriteFailed, write_all};
use text_row::TextRow;

/// Prints what was said, in order.
pub(crate) fn print_fleet<O: Sink>(out: &mut O, said: &[FleetRow]) -> Result<(), WriteFailed>
    ensures content { WritesAll (O.written out.old) (O.written out.new)
        (fleet_text said.now) result }
    ensures cause { Counts (O.faults out.old) (O.faults out.new) (writing_failed result) }
{
    let mut row = TextRow::new();
    for i in 0..said.len() {
        fleet_row(&mut row, said[i]);
        write_all(out, row.bytes())?;
    }
    Ok(())
}
