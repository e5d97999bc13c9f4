//! The array.
ghost use Rattle.std.specs.Prelude.{◌≡◌, ℕ, IfOk, Some, None, length, replicate, slice_index_or};

use crate::free::{Virqs, lowest_from};
use crate::map::{AssocAnswer, DisposeAnswer, Revmap};
use irq_base::NoMemory;
use std::alloc::Global;
use std::marker::Model;

/// A linear map: an array with a place for each hardware number below its size
/// (`irq_domain_create_linear`, `include/linux/irqdomain.h`). Contracts see the list of the places.
#[derive(Drop)]
pub struct LinearMap {
    virqs: Vec<Option<u32>>,
    free: Option<u32>,
}

impl Model for LinearMap {
    ghost use Rattle.std.specs.Prelude.{ℕ, List, Option, slice_index_or, None};
    ghost use Rattle.revmap.specs.Answers.{IsLowestFree};

    ghost Value = { List (Option ℕ) };

    ghost view = { λ m. m.virqs.items };

    ghost invariant = { λ m. IsLowestFree (λ k. slice_index_or m.virqs.items k None) m.free };
}

impl LinearMap {
    /// A map of this size, in which nothing is mapped. The only error is `NoMemory`; no later call
    /// takes memory.
    pub fn new(alloc: Global, size: u32) -> Result<LinearMap, NoMemory>
        ensures size { IfOk result (λ m. ⟦<LinearMap as Revmap>⟧.size m ≡ Some size) }
        ensures empty { IfOk result (λ m. (k : ℕ) → ⟦<LinearMap as Revmap>⟧.at m k ≡ None) }
    {
        let places = size as usize;
        let mut virqs = Vec::with_capacity(alloc, places)?;
        virqs.resize(places, None)?;
        Ok(LinearMap {
            virqs,
            free: Some(0),
        })
    }
}

impl Revmap for LinearMap {
    ghost at = { λ m k. slice_index_or m k None };

    ghost size = { λ m. Some (length m) };

    fn associate(&mut self, virq: u32, hw: u32) -> AssocAnswer {
        let place = hw as usize;
        if place >= self.virqs.len() {
            return AssocAnswer::OutOfRange;
        }
        if self.virqs[place].is_some() {
            return AssocAnswer::Taken;
        }
        self.virqs[place] = Some(virq);
        if self.free == Some(hw) {
            self.free = lowest_from(&self.virqs, hw);
        }
        AssocAnswer::Ok
    }

    fn resolve(&self, hw: u32) -> Option<u32> {
        self.virqs.virq(hw)
    }

    fn dispose(&mut self, hw: u32) -> DisposeAnswer {
        if self.virqs.virq(hw).is_none() {
            return DisposeAnswer::NotThere;
        }
        self.virqs[hw as usize] = None;
        match self.free {
            Some(free) if free < hw => (),
            _ => self.free = Some(hw),
        }
        DisposeAnswer::Ok
    }

    fn lowest_free(&self) -> Option<u32> {
        self.free
    }
}
