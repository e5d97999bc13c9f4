//! Words that are numbers.
ghost use Rattle.std.specs.Prelude.{decimal};
ghost use Rattle.log_read.specs.Takes.{Reads};
ghost use Rattle.irq_words.specs.Numbers.{IsBetween};

use log_read::number_of;

/// The number from `low` to `high` that the word spells, in decimal digits without a leading zero.
pub(crate) fn number_in(word: &[u8], low: u32, high: u32) -> Option<u32>
    ensures { Reads (IsBetween low high) decimal word.now result }
{
    let n = number_of(word)?;
    if low <= n && n <= high { Some(n) } else { None }
}
