//! Message-signalled interrupts: the level of one message, with its mask and what waits behind it,
//! and the message that it sends.
//!
//! A level is no chip by itself: it passes its edges on to the root of its path, and `domain_chain`
//! makes one chip of both. No call takes memory or refuses.
#![tactic(auto)]

pub mod level;
pub mod message;

pub use level::MsiLevel;
pub use message::{Message, compose};
