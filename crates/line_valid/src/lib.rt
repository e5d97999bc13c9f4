//! Decides whether the definition of a line is valid, so that a definition that was read from
//! outside can be made a line. It goes over all pairs of calls.
#![tactic(auto)]

pub mod calls;
pub mod deciding;
pub mod devices;
pub mod runs;

pub use deciding::is_valid;
