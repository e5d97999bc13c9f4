//! The row that says how a line is left.
ghost use Rattle.std.specs.Prelude.{◌≡◌, ◌∷◌, [], MatchOption};
ghost use Rattle.log_read.specs.Left.{is_space, words_of};
ghost use Rattle.log_read.specs.Takes.{Any, Reads};
ghost use Rattle.std.specs.List.{position};
ghost use Rattle.explore_words.specs.Rows.{ReadsHung, ReadsLeft, ReadsRest, standing_word};
ghost use Rattle.explore_words.specs.Rows.{waits_word};

use irq_base::{Actor, LineNo};
use line_wanted::{Left, Standing};
use log_read::{actor_named, number_of};

/// How a line stands, by the word for it.
fn read_standing(word: &[u8]) -> Option<Standing>
    ensures { Reads Any standing_word word.now result }
{
    match word {
        b"stopped" => Some(Standing::Stopped),
        b"enabled" => Some(Standing::Enabled),
        b"disabled" => Some(Standing::Disabled),
        b"killed" => Some(Standing::Killed),
        _ => None,
    }
}

/// Whether an edge is stored and whether an interrupt is pending, by the word for both.
fn read_waits(word: &[u8]) -> Option<(bool, bool)>
    ensures { Reads Any waits_word word.now result }
{
    match word {
        b"-" => Some((false, false)),
        b"stored" => Some((true, false)),
        b"pending" => Some((false, true)),
        b"both" => Some((true, true)),
        _ => None,
    }
}

/// The first word of a row, and the bytes behind the space after it; none if there is no space.
fn cut_word(row: &[u8]) -> Option<(&[u8], &[u8])>
    ensures { MatchOption result (words_of row.now ≡ row.now ∷ [])
        (λ x. words_of row.now ≡ x.0.now ∷ words_of x.1.now) }
{
    let Some(end) = space(row) else {
        return None;
    };
    Some((&row[..end], &row[end + 1..]))
}

/// The place of the first space.
fn space(row: &[u8]) -> Option<usize>
    ensures { result ≡ position is_space row.now }
{
    row.iter().position(|b| *b == b' ')
}

/// The line, and how it is left, that the row says, which has no line feed; none if it is no such
/// row.
pub(crate) fn read_rest(row: &[u8]) -> Option<(LineNo, Left)>
    ensures { ReadsRest row.now result }
{
    let Some((line, behind)) = cut_word(row) else {
        return None;
    };
    let Some(line) = number_of(line) else {
        return None;
    };
    let Some((rest, behind)) = cut_word(behind) else {
        return None;
    };
    if rest != b"rest".as_slice() {
        return None;
    }
    let Some(left) = read_left(behind) else {
        return None;
    };
    Some((LineNo(line), left))
}

/// Who is hung, by the words behind `rest`, and the words behind that. The word for how a line
/// stands is none of an actor.
fn read_hung(words: &[u8]) -> Option<(Option<Actor>, &[u8])>
    ensures { ReadsHung words.now result }
{
    let (first, behind) = cut_word(words)?;
    if first != b"hung".as_slice() {
        return Some((None, words));
    }
    let (actor, behind) = cut_word(behind)?;
    Some((Some(actor_named(actor)?), behind))
}

/// How a line is left, by the words behind `rest`.
fn read_left(words: &[u8]) -> Option<Left>
    ensures { ReadsLeft words.now result }
{
    let (hung, behind) = read_hung(words)?;
    let (standing, behind) = cut_word(behind)?;
    let standing = read_standing(standing)?;
    let (unserved, waits) = cut_word(behind)?;
    let unserved = number_of(unserved)?;
    let Some((stored, pending)) = read_waits(waits) else {
        return None;
    };
    Some(Left {
        hung,
        standing,
        unserved: u64::from(unserved),
        stored,
        pending,
    })
}
