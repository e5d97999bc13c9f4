//! Boards: the processors, domains, lines and devices of a modelled machine, and its drivers'
//! scripts.
//!
//! A `Board` keeps the rules of boards, which every text without a fault meets, and gives the
//! definition of each of its lines. The board's layout says which number a line gets at each level
//! of its path, and which lines are refused.
#![tactic(auto)]

pub mod board;
pub mod definitions;
pub mod levels;
pub mod line_defs;
pub mod names;
pub mod rows;
pub mod tables;

pub use board::Board;
pub use domain_rules::{Layout, Placement, Unmapped};
pub use names::{LONGEST_NAME, Name};
pub use rows::{DomainRow, LineRow, RunCall, ScriptCall, ToldRow};
