//! The interrupt threads of a line's devices (`irq_thread`, `irq_finalize_oneshot` of
//! `kernel/irq/manage.c`, `__irq_wake_thread` of `kernel/irq/handle.c`).
//!
//! A thread is woken, by its handler or by a call (`irq_wake_thread`), begins a run, its handler
//! returns, on a one-shot line the run is finalized, and it is done. Each step is a call; if it
//! couldn't come, nothing changes. The lowest device by number whose thread could step is found in
//! a few words of bits. Memory is taken when `Threads` is made, and never later.
#![tactic(auto)]

pub mod rows;
pub mod threads;

pub use rows::{Finished, Stage, ThreadRow};
pub use threads::Threads;
