//! What the statements of a text state: the board so far, what is wrong with the next statement,
//! and so the board of a text, or its first fault.
//!
//! The definitions are in `specs/`. A statement is judged by the statements before it. What the
//! version of a text says of its board is in `versions.rt`.
#![tactic(auto)]

pub mod versions;
mod writers;

ghost use Rattle.std.specs.Prelude.{◌≡◌, ℕ, List, Ok};
ghost use Rattle.board_def.specs.Rules.{IsBoard};
ghost use Rattle.board_def.specs.Seen.{BoardSeen};
ghost use Rattle.board_stated.specs.TextOf.{board_of_text};

pub use versions::board_of_a_text_is_of_its_version;
pub use writers::Writer;

/// The board of a text keeps the rules of boards.
pub fn board_of_a_text_keeps_the_rules()
    ensures { (bytes : List ℕ) (b : BoardSeen) → board_of_text bytes ≡ Ok b → IsBoard b }
{}
