//! A state's numbers.
ghost use Rattle.std.specs.Prelude.{◌≡◌, ◌++◌, ◌<◌, ◌^◌, OnOk};
ghost use Rattle.irq_base.specs.declared.numbers.DriverNo.{DriverNo};
ghost use Rattle.line_futures.specs.Canon.{canon};
ghost use Rattle.line_scripts.specs.Rows.{place_of};
ghost use Rattle.line_words.specs.Told.{state_told, places_told};

use crate::linking::write_linked;
use crate::more::write_more;
use crate::parts::{desc_words, freeing_words, round_words};
use crate::places::write_places;
use crate::telling::{write_asks, write_begun, write_threads};
use irq_base::{DriverNo, LineDef, NoMemory};
use line_cell::Cell;
use line_scripts::Scripts;
use line_state::LineState;

/// Writes the numbers of the line's canonical state and of the drivers' places at the end of
/// `words`. `more` says whether the line has more than each (`has_more`). The only error is
/// `NoMemory`.
pub fn write(
    def: &LineDef,
    more: bool,
    drivers: &[DriverNo],
    state: &LineState<Cell>,
    scripts: &Scripts,
    words: &mut Vec<u32>,
) -> Result<(), NoMemory>
    requires { (r : DriverNo) → place_of scripts.now r < 2 ^ 32 }
    ensures { OnOk result (words.new.items ≡ words.old.items
        ++ state_told more def.now (canon state.now.state) (places_told scripts.now drivers.now)) }
{
    words.extend_from_slice(&desc_words(state))?;
    words.extend_from_slice(&round_words(state))?;
    words.extend_from_slice(&freeing_words(state))?;
    write_begun(state, &def.devices, words)?;
    write_threads(state, &def.devices, words)?;
    write_asks(state, &def.devices, words)?;
    write_more(state, def, more, words)?;
    write_places(scripts, drivers, words)?;
    write_linked(state, words)
}
