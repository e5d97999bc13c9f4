//! Tests of what only a call of the program sees: sources and sinks that fail at their Nth call,
//! arguments that can't be read, gates and handlers that hold threads, reports of a full log, and
//! what a single line answers where it adds nothing. All else is tried from outside, by cases/.
#![tactic(auto)]

#[cfg(test)]
mod flaky;
#[cfg(test)]
mod lines;
#[cfg(test)]
mod meeting;
#[cfg(test)]
mod small_sinks;
#[cfg(test)]
mod std_streams;
#[cfg(test)]
mod threads;
