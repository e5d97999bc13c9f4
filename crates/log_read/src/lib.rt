//! Logs are read: the text of a log becomes one history for each line of a board, or the first
//! malformed row is named.
//!
//! A row is read word by word, and each piece is read exactly as it is written. So exactly the rows
//! of entries are read, whatever their numbers. A text of n bytes takes time in the order of n, and
//! memory for the histories alone.
#![tactic(auto)]

mod answers;
mod calls;
mod cpus;
mod drivers;
mod entries;
mod kinds;
mod lasts;
mod numbers;
pub mod reading;
pub mod rows;
mod said;
mod threads;
mod versions;
mod words;

pub use numbers::{actor_named, number_of};
pub use reading::{LogRefused, cut_row, place_of, read_log};
pub use rows::read_row;
pub use versions::may_have;
