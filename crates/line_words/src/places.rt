//! The drivers' places.
ghost use Rattle.std.specs.Prelude.{◌≡◌, ◌<◌, ◌^◌, ◌++◌, [], OnOk, drop, length, ◌*◌};
ghost use Rattle.irq_base.specs.declared.numbers.DriverNo.{DriverNo};
ghost use Rattle.line_futures.specs.Places.{count_in};
ghost use Rattle.line_marks.specs.Next.{due_call_in};
ghost use Rattle.line_scripts.specs.Rows.{place_of};
ghost use Rattle.line_words.specs.Reading.{go_all};
ghost use Rattle.line_words.specs.Told.{places_told};

use crate::words::{behind, word};
use irq_base::{DriverNo, NoMemory};
use line_scripts::Scripts;

/// Each driver goes to the place that its numbers say. Answers the numbers behind them.
pub(crate) fn go_all<'w>(scripts: &mut Scripts, drivers: &[DriverNo], words: &'w [u32]) -> &'w [u32]
    ensures scripts { scripts.new ≡ go_all drivers.now words.now scripts.old }
    ensures left { result.now ≡ drop (2 * length drivers.now) words.now }
{
    let mut left = words;
    for driver in drivers {
        scripts.go_to(*driver, word(left, 0) as usize, word(left, 1));
        left = behind(left, 2);
    }
    left
}

/// How many entries the driver's first incomplete call has made; 0 if all are complete.
fn within(scripts: &Scripts, driver: DriverNo) -> u32
    ensures { result ≡ count_in (due_call_in scripts.now driver) }
{
    match scripts.due(driver) {
        Some((_, within)) => within,
        None => 0,
    }
}

/// Writes the numbers of the drivers' places. The only error is `NoMemory`.
pub(crate) fn write_places(
    scripts: &Scripts,
    drivers: &[DriverNo],
    words: &mut Vec<u32>,
) -> Result<(), NoMemory>
    requires { (r : DriverNo) → place_of scripts.now r < 2 ^ 32 }
    ensures { OnOk result
        (words.new.items ≡ words.old.items ++ places_told scripts.now drivers.now []) }
{
    for driver in drivers {
        words.push(scripts.place(*driver) as u32)?;
        words.push(within(scripts, *driver))?;
    }
    Ok(())
}
