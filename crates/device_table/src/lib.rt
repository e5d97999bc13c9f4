//! A value for each device of a line, found by the device's number in constant time.
//!
//! `DeviceTable` is that table, and `Ranks` the order of the devices by their numbers. `RankSet` is
//! a set of devices in a few words of bits: its lowest device is found without a scan of the table.
//! Tables and ranks take their memory when they are made; reading and writing take none.
#![tactic(auto)]

mod hints;
pub mod parts;
pub mod rank_set;
pub mod ranks;
pub mod table;

pub use parts::same_part;
pub use rank_set::RankSet;
pub use ranks::Ranks;
pub use table::DeviceTable;
