//! The handlers of all devices, and how a step of a line has a run's answer.
//!
//! A `Handler` is called for one run, and says by a relation what a call makes of it; so `Heard`
//! says of handlers that they were called once for each of some runs, in their order, and for no
//! other. Threads share a `SharedHandler`, of which a call leaves the evidence that it gave this
//! answer. A step of a line asks whoever `Hears` for the answer of the run that it ends: a
//! handler at hand always has one; behind a lock, where nobody is called, `Before` has what was
//! said before.
//!
//! A `Said` is one answer of one call: only `Said::of` makes one, and it can be neither copied nor
//! cloned. So whatever takes a `Said` for each run that ends has had a handler called for each.
#![tactic(auto)]

pub mod before;
pub mod boxed;
pub mod by_kind;
pub mod handler;
pub mod hears;
pub mod lent;
pub mod said;

pub use before::Before;
pub use boxed::{Boxed, Handling};
pub use by_kind::ByKind;
pub use handler::{Handler, SharedHandler};
pub use hears::Hears;
pub use lent::Lent;
pub use said::Said;
