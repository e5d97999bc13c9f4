//! The interrupt vectors of each processor, as the bits of one atomic word: a vector is claimed in
//! a single step, which waits for nobody (the allocation bitmaps of `kernel/irq/matrix.c`, there
//! under a lock).
//!
//! A `Matrix` has a word for each processor. A `Claim` is what a thread claims with: contracts see
//! which vectors it holds, and which it found taken. Claims are forked from the first one, and it
//! meets them again; then it knows all that is held. Which thread gets which vector isn't said.
#![tactic(auto)]

pub mod claim;
pub mod matrix;
mod steps;
pub mod view;

pub use claim::{Claim, ClaimAnswer};
pub use matrix::Matrix;
pub use view::Vector;
