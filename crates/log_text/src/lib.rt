//! The rows of a log: how an entry of a line's history is written, and where a line lies.
//!
//! A row is words with one space between each two, ended by a line feed, at most 320 bytes. It is
//! written into a `TextRow` that the caller lends, and takes no memory.
//!
//! A line's history has few different entries, which come again and again: rows that were made last
//! are kept (`KeptRows`), each with its line and entry, and given again.
#![tactic(auto)]

mod calls;
mod cpus;
mod drivers;
mod entries;
mod kept;
mod laws;
mod layouts;
mod pieces;
mod places;
mod threads;
mod words;

pub use entries::{MAX_ENTRY_ROW, entry_row};
pub use kept::KeptRows;
pub use laws::{rows_tell_entries, texts_tell_histories};
pub use layouts::layout_row;
pub use pieces::push_actor;
