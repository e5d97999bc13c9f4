//! A lock that counts the entries of the value that it keeps.
//!
//! It keeps one value with a history. A thread takes the value out with a pass, and may put it back
//! with one more entry, which is then the pass's own. A pass knows a beginning of the history, and
//! where the entries of its actor stand in it; passes exist so that nobody else can add an entry of
//! this actor. A std `Mutex` tells nothing of the value that comes out of it but its type.
#![tactic(auto)]

pub mod kept;
pub mod lock;
pub mod pass;
mod steps;
pub mod view;

pub use kept::Kept;
pub use lock::{CountedLock, LockRefused};
pub use pass::Pass;
pub use view::{Known, Placed};
