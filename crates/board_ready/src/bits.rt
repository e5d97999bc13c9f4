//! Words of 64 bits as sets of numbers.
ghost use Rattle.std.specs.Prelude.{◌≡◌, ℕ, ◌<◌, ◌==◌, if◌then◌else◌};
ghost use Rattle.board_ready.specs.First.{first_of};
ghost use Rattle.board_ready.specs.Sets.{has};

/// The word with the number put in (`to`), or taken out.
pub fn with_bit(word: u64, number: usize, to: bool) -> u64
    requires { number < 64 }
    ensures { (i : ℕ) → i < 64 → has result i ≡ (if i == number then to else has word i) }
{
    let bit = 1u64 << number;
    if to { word | bit } else { word & !bit }
}

/// The numbers of `other` that are in `choice`, and the numbers of `word` that are not.
pub fn chosen(word: u64, choice: u64, other: u64) -> u64
    ensures { (i : ℕ) → i < 64 → has result i ≡ (if has choice i then has other i else has word i) }
{
    (word & !choice) | (choice & other)
}

/// The lowest number in the word.
pub fn first_bit(word: u64) -> Option<usize>
    ensures { result ≡ first_of (has word) 64 }
{
    if word == 0 {
        return None;
    }
    Some(word.trailing_zeros() as usize)
}
