//! A search through a space of its own.
ghost use Rattle.std.specs.Prelude.{◌≡◌, ◌≤◌, true, false, IfOk, IfSome, map, length};
ghost use Rattle.state_search.specs.Firsts.{AreFirsts};
ghost use Rattle.state_search.specs.Paths.{Searches, LeavesOut, AreCounted, IsNearest, NoneWanted};
ghost use Rattle.state_search.specs.Seen.{cut_of};

use irq_base::NoMemory;
use state_search::{Sought, Space, search};
use std::alloc::Global;

/// Searches a space that is given up with the search, for at most `most` states: what was found is
/// as `search` says. The only error is `NoMemory`.
pub(crate) fn search_through<L: Copy + Eq, S: Space<L> + Drop>(
    alloc: Global,
    mut space: S,
    most: usize,
) -> Result<Sought<L>, NoMemory>
    requires some { 1 ≤ most }
    requires most { most ≤ 100000000 }
    ensures paths { IfOk result (λ s. Searches (S.can space) (S.node space) s.found.paths
        s.found.looked (cut_of s.found)) }
    ensures states { IfOk result (λ s. s.found.states ≡ map (S.node space) s.found.paths) }
    ensures firsts { IfOk result (λ s.
        AreFirsts L.eq (S.can space) s.found.paths (cut_of s.found) s.found.firsts) }
    ensures counted { IfOk result (λ s. length s.found.counts ≡ s.found.looked) }
    ensures counts { IfOk result (λ s.
        AreCounted (S.can space) s.found.paths s.found.counts) }
    ensures within { IfOk result (λ s. length s.found.paths ≤ most) }
    ensures met { IfOk result (λ s. s.is_met ≡ true
        → IsNearest (S.can space) (S.wanted space) s.found.paths s.found.looked) }
    ensures none { IfOk result (λ s. NoneWanted (S.can space) (S.wanted space)
        s.found.paths s.found.looked (cut_of s.found)) }
    ensures left_out { IfOk result (λ s. s.is_met ≡ false
        → LeavesOut (S.can space) (S.node space) s.found.paths s.found.looked) }
    ensures cut { IfOk result (λ s. s.is_met ≡ false
        → IfSome (cut_of s.found) (λ _. length s.found.paths ≡ most)) }
{
    search(alloc, &mut space, most)
}
