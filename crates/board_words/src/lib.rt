//! The words of a board's text: its text lines, the words of each, and the statement that they
//! make.
//!
//! Here is found what is wrong with a statement in itself. What is wrong with it after the
//! statements before it, like a number that doesn't rise or a name that isn't declared, is not
//! found here.
#![tactic(auto)]

mod calls;
pub mod faults;
mod keywords;
mod kinds;
mod parts;
mod places;
pub mod reading;
pub mod spelling;
pub mod statements;
pub mod text_lines;
mod versions;
pub mod words;

pub use faults::{BoardFault, FaultKind};
pub use reading::read_statement;
pub use spelling::{name, number, pick};
pub use statements::{
    AnswerList, AnswerWord, CallWords, DeviceWords, DomainWords, LineWords, PickList, PickWord,
    Statement, StatementRefused,
};
pub use text_lines::{TextLines, has_bad_byte};
pub use words::Words;
