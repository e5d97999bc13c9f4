//! Which processor takes a line's interrupts (`irq_set_affinity_locked` of `kernel/irq/manage.c`,
//! `irq_move_masked_irq` of `kernel/irq/migration.c`).
//!
//! `Aim` keeps the mask of processors in force and one that waits for the next interrupt. No call
//! takes memory.
#![tactic(auto)]

pub mod aim;

pub use aim::{Aim, has_processor};
