//! Makers of lines over a hierarchy of interrupt domains.
//!
//! A board's layout gives each line that takes part a virq and a path in a hierarchy of the board's
//! domains. A `MakesDomainLine` makes the line of such a virq, and the crates that play, run and
//! check boards are handed one: so they name no line. Lent together with the hierarchy that it
//! looks in, it is a `MakesLine`, which a system of lines is made by.
#![tactic(auto)]

pub mod makes;
pub mod making;

pub use makes::MakesDomainLine;
pub use making::OverDomains;
