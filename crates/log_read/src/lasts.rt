//! The last word of a row, where some rows have none.
ghost use Rattle.std.specs.Prelude.{◌≡◌};
ghost use Rattle.log_text.specs.Words.{edge_words, handled_words};
ghost use Rattle.log_read.specs.Takes.{Ends};

use crate::numbers::expect;
use crate::words::Words;

/// Whether an ask makes an edge: one that makes none says `no`.
pub(crate) fn edge(words: &mut Words<'_>) -> bool
    ensures { Ends edge_words words.old words.new result }
{
    if words.is_done() {
        return true;
    }
    expect(words, b"no");
    false
}

/// Whether a thread's handler answered that it handled something: it says so unless its number
/// tells. `served`: the number is above 0.
pub(crate) fn handled(words: &mut Words<'_>, served: bool) -> bool
    ensures { Ends (λ handled. handled_words handled served) words.old words.new result }
{
    if words.is_done() {
        return served;
    }
    if served {
        expect(words, b"nothing");
        return false;
    }
    expect(words, b"handled");
    true
}
