//! The lines of a board over the chips of their paths.
//!
//! `board_layout` gives each line that takes part a virq and a path in a hierarchy of the board's
//! domains. The maker here takes the chip of that path, with all its levels as one, and makes the
//! line over it.
#![tactic(auto)]

pub mod making;

pub use making::{MakesChainLine, wants_to_link};
