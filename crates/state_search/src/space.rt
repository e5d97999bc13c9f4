//! What is searched.
ghost use Rattle.std.specs.Prelude.{◌≡◌, ℕ, [], ◌∷◌, List, IfOk, OnOk, true, false};
ghost use Rattle.state_search.specs.Paths.{IsPath, AreSteps, IsReached};

use crate::found::Found;
use irq_base::NoMemory;

/// The greatest number of states that a search may be asked for.
pub const MOST: usize = 100_000_000;

/// Where a search goes, and what for: which labels may come after a path, the state that a path
/// leads to, and which states are wanted. A state is written as numbers. A path is its labels, the
/// newest first.
pub trait Space<L: Copy> {
    /// The label may come after the path.
    ghost can: { Self → L → List L → Type 0 };

    /// The numbers of the state to which the path leads.
    ghost node: { Self → List L → List ℕ };

    /// The state to which the path leads is wanted. The search stops at the first such state.
    ghost wanted: { Self → List L → Type 0 };

    /// Writes the numbers of the first state into `words`, which is empty. The only error is
    /// `NoMemory`.
    fn first(&mut self, words: &mut Vec<u32>) -> Result<(), NoMemory>
        requires { words.old.items ≡ [] }
        ensures same { self.new ≡ self.old }
        ensures first { OnOk result (words.new.items ≡ node self.old []) };

    /// The labels that may come next in the state with these numbers, each with the numbers of the
    /// state after it. The only error is `NoMemory`.
    fn steps(&mut self, words: &[u32], found: &mut Found<L>) -> Result<(), NoMemory>
        requires reached { IsReached (can self.old) (node self.old) 100000000 words.now }
        requires empty { found.old ≡ [] }
        ensures same { self.new ≡ self.old }
        ensures steps { OnOk result ((g : List L) → IsPath (can self.old) g
            → node self.old g ≡ words.now → AreSteps (can self.old) (node self.old) g found.new) };

    /// Whether the state with these numbers is wanted, after which these labels may come. The only
    /// error is `NoMemory`.
    fn is_wanted(&mut self, words: &[u32], found: &Found<L>) -> Result<bool, NoMemory>
        requires reached { IsReached (can self.old) (node self.old) 100000000 words.now }
        requires steps { (g : List L) → IsPath (can self.old) g → node self.old g ≡ words.now
            → AreSteps (can self.old) (node self.old) g found.now }
        ensures same { self.new ≡ self.old }
        ensures wanted { IfOk result (λ is. is ≡ true → (g : List L) → IsPath (can self.old) g
            → node self.old g ≡ words.now → wanted self.old g) }
        ensures unwanted { IfOk result (λ is. is ≡ false → (g : List L) → IsPath (can self.old) g
            → node self.old g ≡ words.now → wanted self.old g → ⊥) };
}
