//! The descriptor of a line (`struct irq_desc`, `include/linux/irqdesc.h`): its depth and its
//! marks, and what the calls of drivers and flow handlers make of them and of the line's chips.
//!
//! `Desc` keeps no chip of its own: a call that masks, unmasks or sends again is handed it. No call
//! takes memory or refuses.
#![tactic(auto)]

pub mod desc;
pub mod marks;

pub use desc::Desc;
pub use marks::DescMarks;
