//! The chip of a whole path: all that a line's controllers, from its device up to the processors,
//! do with its signal, as one signal cell.
//!
//! A path has at most one level before its root that masks and stores, the first level of messages
//! from the device; each other level passes everything on. So a `Chain` is a root and, if there is
//! one, that level. An `MsiChip` is the chain of one message over a plain root. No call takes
//! memory or refuses, and each takes constant time.
#![tactic(auto)]

pub mod chain;
pub mod message;
mod roots;
pub mod sending;

pub use chain::Chain;
pub use message::MsiChip;
pub use sending::sent_while_active;
