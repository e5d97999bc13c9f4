//! What the version of a board's text says of the board: one of version 1 or 2 has no runs that
//! call, tells no device its answers, and has none of the calls and options that version 3 brought.
//! So the logs of its lines have no row of version 3.

ghost use Rattle.std.specs.Prelude.{◌≡◌, ℕ, List, Ok};
ghost use Rattle.board_def.specs.Seen.{BoardSeen};
ghost use Rattle.board_stated.specs.TextOf.{board_of_text};
ghost use Rattle.board_stated.specs.OfVersion.{IsOfItsVersion};

/// The board of a text has what texts of its version have.
pub fn board_of_a_text_is_of_its_version()
    ensures { (bytes : List ℕ) (b : BoardSeen) → board_of_text bytes ≡ Ok b → IsOfItsVersion b }
{}
