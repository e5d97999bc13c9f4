//! What stands in the way of an actor that has no entry due. Nobody needs it to step a line: who
//! judges a log says it of the first entry that wasn't due.
#![tactic(auto)]

pub mod obstacle;

pub use obstacle::{Obstacle, TellsObstacles};
