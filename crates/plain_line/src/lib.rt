//! The plain line, the reference: a definition and a history, in which everything is looked up. It
//! is slow and short, and a line like any other. So it is the contract of lines in executable form:
//! faster lines are compared with it, and what uses lines can be tried over it.
#![tactic(auto)]

mod line;
mod looking;
mod making;
mod running;

pub use line::PlainLine;
pub use making::MakesPlainLine;
