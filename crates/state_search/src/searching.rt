//! The search.
ghost use Rattle.std.specs.Prelude.{◌≡◌, ◌≤◌, ℕ, true, false, IfOk, IfSome, map, length};
ghost use Rattle.state_search.specs.Firsts.{AreFirsts};
ghost use Rattle.state_search.specs.Paths.{Searches, LeavesOut, AreCounted, IsNearest, NoneWanted};
ghost use Rattle.state_search.specs.Seen.{cut_of};

use crate::found::Found;
use crate::searched::{Look, Room, Searched};
use crate::space::Space;
use irq_base::NoMemory;
use std::alloc::Global;

/// What a search found, and whether it stopped.
#[derive(Drop)]
pub struct Sought<L: Copy> {
    /// What was found until the search ended.
    pub found: Searched<L>,
    /// Whether the next state to be looked at is wanted, so that the search stopped there.
    pub is_met: bool,
}

/// Searches the space, breadth first, until a state is wanted, for at most `most` states.
///
/// If the search stops, the first state that wasn't looked at is the wanted one, and no path to a
/// wanted state is shorter. Else no state that was looked at is wanted. They are all states; or, if
/// there are more than `most`, the search is cut: only the first `looked` states were looked at for
/// what comes next, and after the next one comes a state that is left out. The only error is
/// `NoMemory`.
pub fn search<L: Copy + Eq, S: Space<L>>(
    alloc: Global,
    space: &mut S,
    most: usize,
) -> Result<Sought<L>, NoMemory>
    requires some { 1 ≤ most }
    requires most { most ≤ 100000000 }
    ensures same { space.new ≡ space.old }
    ensures paths { IfOk result (λ s. Searches (S.can space.old) (S.node space.old) s.found.paths
        s.found.looked (cut_of s.found)) }
    ensures states { IfOk result (λ s. s.found.states ≡ map (S.node space.old) s.found.paths) }
    ensures firsts { IfOk result (λ s.
        AreFirsts L.eq (S.can space.old) s.found.paths (cut_of s.found) s.found.firsts) }
    ensures counted { IfOk result (λ s. length s.found.counts ≡ s.found.looked) }
    ensures counts { IfOk result (λ s.
        AreCounted (S.can space.old) s.found.paths s.found.counts) }
    ensures within { IfOk result (λ s. length s.found.paths ≤ most) }
    ensures met { IfOk result (λ s. s.is_met ≡ true
        → IsNearest (S.can space.old) (S.wanted space.old) s.found.paths s.found.looked) }
    ensures none { IfOk result (λ s. NoneWanted (S.can space.old) (S.wanted space.old)
        s.found.paths s.found.looked (cut_of s.found)) }
    ensures left_out { IfOk result (λ s. s.is_met ≡ false
        → LeavesOut (S.can space.old) (S.node space.old) s.found.paths s.found.looked) }
    ensures cut { IfOk result (λ s. s.is_met ≡ false
        → IfSome (cut_of s.found) (λ _. length s.found.paths ≡ most)) }
{
    let mut searched = Searched::start(alloc, space)?;
    let mut found = Found::new(alloc);
    let mut room = Room::new(alloc);
    while searched.is_open() {
        match searched.look(alloc, space, &mut found, &mut room, most)? {
            Look::Whole => {}
            Look::Cut => {
                return Ok(Sought {
                    found: searched,
                    is_met: false,
                });
            }
            Look::Wanted => {
                return Ok(Sought {
                    found: searched,
                    is_met: true,
                });
            }
        }
    }
    Ok(Sought {
        found: searched,
        is_met: false,
    })
}
