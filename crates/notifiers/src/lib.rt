//! What is told that a line was placed on a processor, with the fact that it answers with the
//! processor modulo the queues: a driver with several queues learns so which of them is served
//! there.
//!
//! A `Notifier` is called for one placing, and says by a relation what a call makes of it; so
//! `Told` says of notifiers that they were called once for each of some placings, in their order,
//! and for no other.
#![tactic(auto)]

pub mod boxed;
pub mod by_processor;
pub mod notifier;

pub use boxed::{BoxedNotifier, Notifying};
pub use by_processor::ByProcessor;
pub use notifier::Notifier;
