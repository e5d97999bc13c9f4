//! Reverse maps: which virq a hardware number of a domain is mapped to (`revmap` and `revmap_tree`
//! of `struct irq_domain`, `include/linux/irqdomain.h`).
//!
//! `LinearMap` is an array of a fixed size, whose memory is taken when it is made; `TreeMap` has
//! every hardware number. To contracts both are a finite map from hardware numbers to virqs
//! (`Revmap`). Each keeps its lowest free number, so that it is answered at once.
#![tactic(auto)]

mod free;
pub mod linear;
pub mod map;
pub mod tree;

pub use linear::LinearMap;
pub use map::{AssocAnswer, DisposeAnswer, Revmap};
pub use tree::TreeMap;
