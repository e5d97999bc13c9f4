//! The reverse maps of a hierarchy's domains, one for each (`struct irq_domain`,
//! `include/linux/irqdomain.h`). A whole path is written into them at once, from its root to its
//! leaf, or is given up.
#![tactic(auto)]

mod map;
pub mod maps;

pub use maps::DomainMaps;
