//! The tree.
ghost use Rattle.std.specs.Prelude.{◌≡◌, ℕ, None};
ghost use Rattle.revmap.specs.Answers.{entry_at};

use crate::free::{Virqs, lowest_from};
use crate::map::{AssocAnswer, DisposeAnswer, Revmap};
use std::alloc::Global;
use std::collections::BTreeMap;
use std::marker::Model;

/// A tree, which has every hardware number (`irq_domain_create_tree`, `include/linux/irqdomain.h`).
/// Contracts see the pairs of a number and its virq.
#[derive(Drop)]
pub struct TreeMap {
    virqs: BTreeMap<u32, u32>,
    free: Option<u32>,
}

impl Model for TreeMap {
    ghost use Rattle.std.specs.Prelude.{ℕ, List};
    ghost use Rattle.revmap.specs.Answers.{IsLowestFree, entry_at};

    ghost Value = { List (ℕ × ℕ) };

    ghost view = { λ m. m.virqs.entries };

    ghost invariant = { λ m. IsLowestFree (entry_at m.virqs.entries) m.free };
}

impl TreeMap {
    /// A map in which nothing is mapped.
    pub fn new(alloc: Global) -> TreeMap
        ensures size { ⟦<TreeMap as Revmap>⟧.size result ≡ None }
        ensures empty { (k : ℕ) → ⟦<TreeMap as Revmap>⟧.at result k ≡ None }
    {
        TreeMap {
            virqs: BTreeMap::new(alloc),
            free: Some(0),
        }
    }
}

impl Revmap for TreeMap {
    ghost at = { entry_at };

    ghost size = { λ m. None };

    fn associate(&mut self, virq: u32, hw: u32) -> AssocAnswer {
        if self.virqs.contains_key(&hw) {
            return AssocAnswer::Taken;
        }
        if self.virqs.insert(hw, virq).is_err() {
            return AssocAnswer::NoMemory;
        }
        if self.free == Some(hw) {
            self.free = lowest_from(&self.virqs, hw);
        }
        AssocAnswer::Ok
    }

    fn resolve(&self, hw: u32) -> Option<u32> {
        self.virqs.virq(hw)
    }

    fn dispose(&mut self, hw: u32) -> DisposeAnswer {
        if self.virqs.remove(&hw).is_none() {
            return DisposeAnswer::NotThere;
        }
        match self.free {
            Some(free) if free < hw => (),
            _ => self.free = Some(hw),
        }
        DisposeAnswer::Ok
    }

    fn lowest_free(&self) -> Option<u32> {
        self.free
    }
}
