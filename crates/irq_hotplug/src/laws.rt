//! What a placing comes to, said of all processors at once.
ghost use Rattle.std.specs.Prelude.{ℕ, Bool, List};
ghost use Rattle.vector_matrix.specs.declared.view.Vector.{Vector};
ghost use Rattle.irq_hotplug.specs.First.{PlacesFirst};

/// A line is placed at the first place: the lowest vector that isn't taken of the first processor
/// that has one, those of the mask being asked before the others and the lower ones first. It is
/// unplaced only if every vector of every online processor is taken.
#[tactic(auto, using(crate::proofs::FirstPlace::places_first))]
pub fn places_first()
    ensures law { (taken : Vector → Bool) (vectors : ℕ) (online : List Bool) (mask : ℕ)
        → PlacesFirst taken vectors online mask }
{}
