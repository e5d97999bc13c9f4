//! Tests of how often handlers are called: in plays, where memory is refused, and in the threads of
//! a run. That each run of a play is one call its contract says; of a run's threads none says it.
//!
//! Besides, what only a call sees of processors that go offline: who is told, what stays where
//! memory is refused, and who takes interrupts after a move. All else is tried from outside, by
//! cases/.
#![tactic(auto)]

#[cfg(test)]
mod moved;
#[cfg(test)]
mod plays;
#[cfg(test)]
mod refused;
#[cfg(test)]
mod told;
#[cfg(test)]
mod workers_step;
