//! A board is played on processors that go offline and come online: each of its lines is placed on
//! a processor, the events are taken one by one, and then the board with the moves of its lines is
//! played and printed; where the lines are placed, and what becomes of the processors, is printed
//! between the layout and the play.
//!
//! What is promised stands in `specs/Played.antt`; what is printed in `specs/Texts.antt`, and in
//! `specs/Rows.antt` the rows that say where lines are placed and what becomes of processors, each
//! of which begins with `#`, so that no reader of a log takes it for an entry. Events come before
//! the play: nothing is said of an interrupt that comes while a processor goes down.
//!
//! What holds of a board's lines over all events is in `laws.rt`, over the definitions alone.
#![tactic(auto)]

mod ended;
mod fleet_rows;
pub mod laws;
mod planning;
mod playing;
mod printing;

pub use fleet_rows::fleet_row;
pub use laws::{keep_places, moves_aim};
pub use playing::{NotForHotplug, hotplug_and_print};
