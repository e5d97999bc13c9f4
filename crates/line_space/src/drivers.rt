//! The drivers that have calls on a line.
ghost use Rattle.std.specs.Prelude.{◌≡◌, IfOk, OnOk, IsTrue};
ghost use Rattle.std.specs.List.{list_any};
ghost use Rattle.irq_model.specs.Kinds.{same_driver};
ghost use Rattle.line_words.specs.Node.{drivers_in};

use irq_base::{CallList, DriverNo, NoMemory};
use std::alloc::Global;

/// Whether the driver is one of these.
fn is_there(drivers: &[DriverNo], driver: DriverNo) -> bool
    ensures { result ≡ list_any (same_driver driver) drivers.now }
{
    for there in drivers {
        if driver == *there {
            return true;
        }
    }
    false
}

/// The drivers of the calls, each once, in the order of their last calls. The only error is
/// `NoMemory`.
pub fn drivers_of(alloc: Global, calls: &CallList) -> Result<Vec<DriverNo>, NoMemory>
    ensures { IfOk result (λ drivers. drivers.items ≡ drivers_in calls.now) }
{
    let mut drivers = Vec::new(alloc);
    let mut left = calls.len();
    while left > 0 {
        left -= 1;
        if let Some((driver, _)) = calls.get(left) {
            if !is_there(drivers.as_slice(), driver) {
                drivers.push(driver)?;
            }
        }
    }
    drivers.reverse();
    Ok(drivers)
}
