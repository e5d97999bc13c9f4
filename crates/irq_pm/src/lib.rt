//! A board that goes to sleep and wakes (`kernel/irq/pm.c`, `kernel/power/suspend.c`): which boards
//! can, the board that does, and what holds of every sleep.
//!
//! A driver of the system's own, behind all others, disables each line and waits for its handlers
//! and threads; devices go on asking until an interrupt of an armed line wakes the machine, or
//! nothing is left to happen; then the driver enables each line, and the board is played on. All of
//! it is a play by a stated order of the board with that driver, so each line's history is a legal
//! one. What a sleep is stands in `specs/Phases.antt`, to be read top down; what is promised of it
//! in `specs/Slept.antt`; what a line keeps while any driver has it asleep in `sleeping.rt`. Nothing
//! here plays a board.
#![tactic(auto)]

mod entries;
mod fitting;
mod promises;
pub mod sleeping;

pub use entries::SleepEntry;
pub use fitting::{fits_sleep, with_sleep};
pub use promises::{sleep_comes_to_rest, sleep_is_one, sleep_keeps_lines, sleeps_through};
pub use sleeping::{falls_asleep, left_alone, resumes_as_it_was, sleeps_soundly};
