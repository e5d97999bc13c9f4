//! Lines on processors that go offline and come online: where each is placed, and
//! who is told.
//!
//! A `Fleet` has the lines of a board. Each has a vector of a processor, by a stated order; an
//! event takes a processor offline or online. All of it is one function of the board and the
//! events, `fleet_after` of `specs/Fleet.antt`.
#![tactic(auto)]

mod berths;
mod events;
mod fleet;
mod laws;
mod lines;
mod placing;
mod rooms;
mod rows;
mod vectors;

pub use berths::{Berth, Moving, Place};
pub use events::{Event, take_events};
pub use fleet::Fleet;
pub use laws::places_first;
pub use rows::{FleetRow, OffAnswer, OnAnswer};
