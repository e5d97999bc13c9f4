//! The pieces of a summary row.
ghost use Rattle.std.specs.Prelude.{◌≡◌, ◌+◌, ◌≤◌, [], ◌∷◌, ◌++◌, length, decimal};
ghost use Rattle.log_text.specs.Spaced.{spaced};

use text_row::TextRow;

/// The most digits of a u64.
const MAX_DIGITS: usize = 20;

/// Adds a space and the word.
pub(crate) fn push_word(row: &mut TextRow, word: &[u8])
    requires short { length word.now ≤ 8 }
    requires room { length row.old ≤ 300 }
    ensures text { row.new ≡ row.old ++ spaced (word.now ∷ []) }
    ensures grows { length row.new ≤ length row.old + 9 }
{
    row.push(b' ');
    row.push_bytes(word);
}

/// Adds a space and the number.
#[tactic(auto, using(crate::proofs::Digits::short_number))]
pub(crate) fn push_number(row: &mut TextRow, number: u64)
    requires { length row.old ≤ 290 }
    ensures text { row.new ≡ row.old ++ spaced (decimal number ∷ []) }
    ensures grows { length row.new ≤ length row.old + 21 }
{
    let mut digits = [0; MAX_DIGITS];
    let start = itoa::write_digits(number, &mut digits, MAX_DIGITS);
    row.push(b' ');
    row.push_bytes(&digits[start..]);
}

/// Adds what is counted, and how many there are.
pub(crate) fn push_count(row: &mut TextRow, word: &[u8], count: u64)
    requires short { length word.now ≤ 8 }
    requires room { length row.old ≤ 280 }
    ensures text { row.new ≡ row.old ++ spaced (word.now ∷ decimal count ∷ []) }
    ensures grows { length row.new ≤ length row.old + 30 }
{
    push_word(row, word);
    push_number(row, count);
}
