//! Where the row of an entry is looked for.
ghost use Rattle.std.specs.Prelude.{◌<◌};

use irq_base::{LineNo, Packed};

/// How many rows are kept.
pub const PLACES: usize = 512;

/// Odd, and near to 2^64 divided by the golden ratio, so that its multiples lie apart.
const SPREAD: u64 = 0x9E37_79B9_7F4A_7C15;

/// The place of an entry's word on that line: the highest bits of a product, which each bit of the
/// word and of the line's number changes.
pub fn place_of(line: LineNo, word: Packed) -> usize
    ensures { result < 512 }
{
    let number = word.number().wrapping_add(u64::from(line.0) << 40);
    (number.wrapping_mul(SPREAD) >> 55) as usize
}
