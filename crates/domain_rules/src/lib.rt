//! The rules of interrupt domains: which domains there may be, what the levels of a path make of a
//! line's signal, and where each line lies (`kernel/irq/irqdomain.c`).
//!
//! These are definitions and their laws alone, over a list of domains and a list of lines. They
//! know no names of domains, so that a board and a hierarchy can cite the same ones. `src/` has the
//! words of a layout.
#![tactic(auto)]

pub mod layouts;

pub use layouts::{Layout, Placement, Unmapped};
