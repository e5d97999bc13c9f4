//! What the versions of texts have.
ghost use Rattle.std.specs.Prelude.{◌≡◌};
ghost use Rattle.board_words.specs.Versions.{has_moments, has_runs};

/// Whether texts of the version have the call `moment`.
pub(crate) fn has_moments(version: u32) -> bool
    ensures { result ≡ has_moments version }
{
    version >= 2
}

/// Whether texts of the version say what handlers and threads call.
pub(crate) fn has_runs(version: u32) -> bool
    ensures { result ≡ has_runs version }
{
    version >= 3
}
