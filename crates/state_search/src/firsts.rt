//! Where labels came first.
ghost use Rattle.std.specs.Prelude.{◌≡◌, ◌↔◌, IsTrue, IfSome, IfNone, OnOk, length};
ghost use Rattle.state_search.specs.Firsts.{IsNoted, IsNotedAt};
ghost use Rattle.state_search.specs.Growing.{AreNoted};

use crate::found::Found;
use irq_base::NoMemory;

/// A label, and the place of the first state in which it may come.
#[derive(Clone, Copy)]
pub struct First<L: Copy> {
    /// The label.
    pub label: L,
    /// The place, from 0.
    pub place: u32,
}

/// The place noted with the label, if the label is noted.
pub(crate) fn place_of<L: Copy + Eq>(firsts: &[First<L>], label: L) -> Option<u32>
    ensures some { IfSome result (λ n. IsNotedAt L.eq firsts.now label (λ m. m ≡ n)) }
    ensures none { IfNone result (IsNoted L.eq firsts.now label → ⊥) }
{
    for first in firsts {
        if first.label == label {
            return Some(first.place);
        }
    }
    None
}

/// Whether the label is noted.
fn is_noted<L: Copy + Eq>(firsts: &[First<L>], label: L) -> bool
    ensures { IsTrue result ↔ IsNoted L.eq firsts.now label }
{
    place_of(firsts, label).is_some()
}

/// Notes each label that was found and isn't noted yet, with the place. The only error is
/// `NoMemory`.
pub(crate) fn note<L: Copy + Eq>(
    firsts: &mut Vec<First<L>>,
    place: u32,
    found: &Found<L>,
) -> Result<(), NoMemory>
    ensures { OnOk result
        (AreNoted L.eq place found.now (length found.now) firsts.old.items firsts.new.items) }
{
    for i in 0..found.len() {
        let (label, _) = found.get(i);
        if !is_noted(firsts, label) {
            firsts.push(First { label, place })?;
        }
    }
    Ok(())
}
