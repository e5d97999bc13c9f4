//! A set of ranks.
ghost use Rattle.std.specs.Prelude.{◌≡◌, ℕ, ◌<◌, ◌==◌, ◌||◌, ◌&&◌, false, if◌then◌else◌};
ghost use Rattle.std.specs.Int.{bit_at};
ghost use Rattle.device_table.specs.RankSets.{holds, IsFirst};

use std::marker::Model;

/// The number of words.
const WORDS: usize = 4;

/// A set of ranks below 256, a bit for each. Contracts see its words; `holds` reads a bit of them.
#[derive(Drop)]
pub struct RankSet {
    words: [u64; WORDS],
}

impl Model for RankSet {
    ghost use Rattle.std.specs.Prelude.{List, ℕ};

    ghost Value = { List ℕ };

    ghost view = { λ s. s.words };
}

impl RankSet {
    /// The empty set.
    pub fn new() -> RankSet
        ensures { (r : ℕ) → r < 256 → holds result r ≡ false }
    {
        RankSet { words: [0; WORDS] }
    }

    /// Puts the rank in, or takes it out.
    pub fn put(&mut self, rank: u32, to: bool)
        requires { rank < 256 }
        ensures { (r : ℕ) → r < 256
            → holds self.new r ≡ (if r == rank then to else holds self.old r) }
    {
        let place = rank as usize / 64;
        let bit = 1u64 << (rank % 64);
        if to {
            self.words[place] |= bit;
        } else {
            self.words[place] &= !bit;
        }
    }

    /// The lowest rank of this set; with `with`, of this set and the other.
    pub fn first(&self, other: &RankSet, with: bool) -> Option<u32>
        ensures { IsFirst (λ r. holds self.now r || (with && holds other.now r)) result }
    {
        for k in 0..WORDS {
            let word = joined(self.words[k], other.words[k], with);
            if word != 0 {
                return Some(64 * k as u32 + word.trailing_zeros());
            }
        }
        None
    }
}

/// The bits of the first word; with `with`, of both words.
fn joined(first: u64, second: u64, with: bool) -> u64
    ensures { (i : ℕ)
        → (bit_at result i == 1) ≡ ((bit_at first i == 1) || (with && (bit_at second i == 1))) }
{
    if with { first | second } else { first }
}
