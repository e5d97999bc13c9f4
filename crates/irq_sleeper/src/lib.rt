//! The lines of a board that go to sleep and wake (`kernel/power/suspend.c`).
//!
//! A `Sleeper` plays a board that has the system's driver by the order of a sleep (`irq_pm`), and
//! keeps its log: the steps of the lines, and the two marks between them, asleep and wake.
#![tactic(auto)]

mod marks;
mod sleeper;
mod walk;
mod watch;

pub use marks::WakeMark;
pub use sleeper::Sleeper;
pub use walk::SleepWalk;
