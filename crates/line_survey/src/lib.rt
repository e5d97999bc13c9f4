//! What can come on a line at all, over all its legal histories: a shortest history to whatever is
//! wanted, and a survey of all states.
#![tactic(auto)]

pub mod answer;
mod leaving;
mod reader;
mod resting;
mod rows;
pub mod searching;
pub mod seeking;
pub mod survey;
mod surveying;
mod through;
mod wanting;

pub use answer::Answer;
pub use searching::LineSearch;
pub use seeking::shortest;
pub use survey::{EntryRow, RestRow, Survey};
