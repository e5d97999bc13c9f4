//! The drivers' scripts on one line: how far each driver is with its calls.
//!
//! `Scripts` takes its memory when it is made, in time linear in the calls. From then on it says
//! which call of a driver is due, and counts one more entry of it, in constant time and without
//! memory. `completes` says which entry of a call is its last, `wait_of` what the next one waits
//! for.
#![tactic(auto)]

pub mod ending;
pub mod row;
pub mod scripts;
pub mod waiting;

pub use ending::completes;
pub use row::Row;
pub use scripts::Scripts;
pub use waiting::wait_of;
