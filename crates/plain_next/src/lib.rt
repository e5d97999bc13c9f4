//! The reference program for the entry that is due, read off the definitions of `irq_model`:
//! `next_slow` meets them after any history, legal or not, of a line with at most 32 processors and
//! 256 devices.
//!
//! Each call looks back over the whole history, and may take time in the order of the square of its
//! length. Faster programs are compared with it; no crate of the program stands on it.
#![tactic(auto)]

mod asks;
mod due;
mod edges;
mod entry_tests;
mod hanging;
mod kinds;
mod lines;
mod links;
mod masks;
mod next;
mod next_call;
mod next_cpu;
mod next_driver;
mod next_thread;
mod places;
mod rounds;
mod runs;
mod scripts;
mod signal;
mod spurious;
mod threads;
mod waiting;

pub use due::{holds_mutex, is_being_freed};
pub use hanging::lowest_hung;
pub use lines::{any_device, does_forget, is_held, kind_of};
pub use next::{newest_first, next_past, next_slow};
pub use rounds::flow;
pub use runs::{met_by, told_of};
pub use signal::target;
pub use threads::{active_count, is_running, is_woken};
