//! What one may ask of a line's histories: how a line is left where nobody moves any more, and what
//! is looked for. The
//! definitions stand in specs/: `Left` says how a history leaves its line, `Wanted` which histories
//! are as wanted, and which of them are shortest.
#![tactic(auto)]

pub mod left;
pub mod wanted;

pub use left::{Left, Standing};
pub use wanted::Wanted;
