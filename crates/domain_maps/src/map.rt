//! The map of one domain.
ghost use Rattle.std.specs.Prelude.{◌≡◌, IfOk, ℕ, None};
ghost use Rattle.domain_maps.specs.Numbers.{map_at, map_size, size_of_kind};

use irq_base::{MapKind, NoMemory};
use revmap::{AssocAnswer, DisposeAnswer, LinearMap, Revmap, TreeMap};
use std::alloc::Global;

/// A domain's map, of either kind.
#[derive(Drop)]
pub(crate) enum DomainMap {
    Linear(LinearMap),
    Tree(TreeMap),
}

impl DomainMap {
    /// A map of this kind, in which nothing is mapped. The only error is `NoMemory`.
    pub(crate) fn new(alloc: Global, kind: MapKind) -> Result<DomainMap, NoMemory>
        ensures size { IfOk result (λ m. map_size m ≡ size_of_kind kind) }
        ensures empty { IfOk result (λ m. (hw : ℕ) → map_at m hw ≡ None) }
    {
        Ok(match kind {
            MapKind::Linear(size) => DomainMap::Linear(LinearMap::new(alloc, size)?),
            MapKind::Tree => DomainMap::Tree(TreeMap::new(alloc)),
        })
    }
}

impl Revmap for DomainMap {
    ghost at = { map_at };

    ghost size = { map_size };

    fn associate(&mut self, virq: u32, hw: u32) -> AssocAnswer {
        match self {
            DomainMap::Linear(map) => map.associate(virq, hw),
            DomainMap::Tree(map) => map.associate(virq, hw),
        }
    }

    fn resolve(&self, hw: u32) -> Option<u32> {
        match self {
            DomainMap::Linear(map) => map.resolve(hw),
            DomainMap::Tree(map) => map.resolve(hw),
        }
    }

    fn dispose(&mut self, hw: u32) -> DisposeAnswer {
        match self {
            DomainMap::Linear(map) => map.dispose(hw),
            DomainMap::Tree(map) => map.dispose(hw),
        }
    }

    fn lowest_free(&self) -> Option<u32> {
        match self {
            DomainMap::Linear(map) => map.lowest_free(),
            DomainMap::Tree(map) => map.lowest_free(),
        }
    }
}
