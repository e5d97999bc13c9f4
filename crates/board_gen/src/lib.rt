//! Boards that a number generates, for runs at scale: 4 to 16 lines with one or two devices each,
//! and a driver a line that requests, asks, disables, enables, asks on, and frees.
//!
//! The same number always gives the same board. `specs/Plans.antt` says what is drawn, and
//! `specs/Generated.antt` what board is made of it.
#![tactic(auto)]

mod boards;
mod draws;
mod lines;
mod scripts;

pub use boards::generate;
