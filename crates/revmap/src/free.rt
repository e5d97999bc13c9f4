//! The search for the next free number.
ghost use Rattle.std.specs.Prelude.{◌≡◌, ℕ, ◌<◌, Option, None, is_some, true, slice_index_or};
ghost use Rattle.revmap.specs.Answers.{IsLowestFree, entry_at};

use std::collections::BTreeMap;

/// Where a map keeps its virqs.
pub(crate) trait Virqs {
    /// The virq at each hardware number that is mapped.
    ghost at: { Self → ℕ → Option ℕ };

    /// The virq at the hardware number.
    fn virq(&self, hw: u32) -> Option<u32>
        ensures { result ≡ at self.now hw };
}

impl Virqs for Vec<Option<u32>> {
    ghost at = { λ v k. slice_index_or v.items k None };

    fn virq(&self, hw: u32) -> Option<u32> {
        let place = hw as usize;
        if place < self.len() {
            self[place]
        } else {
            None
        }
    }
}

impl Virqs for BTreeMap<u32, u32> {
    ghost at = { λ m. entry_at m.entries };

    fn virq(&self, hw: u32) -> Option<u32> {
        self.get(&hw).copied()
    }
}

/// The lowest number that isn't mapped; all numbers below `from` are mapped.
pub(crate) fn lowest_from<V: Virqs>(virqs: &V, from: u32) -> Option<u32>
    requires { (k : ℕ) → k < from → is_some (V.at virqs.now k) ≡ true }
    ensures { IsLowestFree (V.at virqs.now) result }
{
    let mut hw = from;
    while virqs.virq(hw).is_some() {
        if hw == u32::MAX {
            return None;
        }
        hw += 1;
    }
    Some(hw)
}
