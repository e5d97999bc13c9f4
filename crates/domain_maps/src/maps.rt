//! The maps of all domains.
ghost use Rattle.std.specs.Prelude.{◌≡◌, ◌<◌, ◌≤◌, ◌+◌, ◌++◌, ◌&&◌, ℕ, true, [], ◌∷◌, None, Some};
ghost use Rattle.std.specs.Prelude.{length, drop, OnOk, OnErr, if◌then◌else◌};
ghost use Rattle.revmap.specs.Answers.{IsAssociated, is_associated, IsLowestFree};
ghost use Rattle.domain_maps.specs.Numbers.{sizes, size_of_kind, virq_at, is_within, is_on};
ghost use Rattle.domain_maps.specs.Numbers.{is_level, HasRoom, with_path, without_path};

use crate::map::DomainMap;
use irq_base::{MapKind, NoMemory, Path};
use revmap::{AssocAnswer, Revmap};
use std::alloc::Global;
use std::marker::Model;

/// The reverse maps of a list of domains, in their order. Contracts see the virq at each domain's
/// place and hardware number (`virq_at`), and the maps' sizes.
#[derive(Drop)]
pub struct DomainMaps {
    maps: Vec<DomainMap>,
}

impl Model for DomainMaps {
    ghost use Rattle.std.specs.Prelude.{List};
    ghost use Rattle.domain_maps.specs.declared.map.DomainMap.{DomainMap};

    ghost Value = { List DomainMap };

    ghost view = { λ m. m.maps.items };
}

impl DomainMaps {
    /// No maps. It takes no memory yet.
    pub fn new(alloc: Global) -> DomainMaps
        ensures { result ≡ [] }
    {
        DomainMaps {
            maps: Vec::new(alloc),
        }
    }

    /// Adds an empty map of this kind at the end. If it is refused, all is as before.
    pub fn push(&mut self, alloc: Global, kind: MapKind) -> Result<(), NoMemory>
        ensures numbers { OnOk result ((domain hw : ℕ)
            → virq_at self.new domain hw ≡ virq_at self.old domain hw) }
        ensures sizes { OnOk result (sizes self.new ≡ sizes self.old ++ size_of_kind kind ∷ []) }
        ensures err { OnErr result (self.new ≡ self.old) }
    {
        let map = DomainMap::new(alloc, kind)?;
        self.maps.push(map)?;
        Ok(())
    }

    /// The virq at hardware number `hw` of the domain at place `domain`; none if it isn't mapped.
    pub fn virq(&self, domain: usize, hw: u32) -> Option<u32>
        ensures { result ≡ virq_at self.now domain hw }
    {
        if domain < self.maps.len() {
            self.maps[domain].resolve(hw)
        } else {
            None
        }
    }

    /// The lowest number that isn't mapped at the domain; there always is one. In a full linear map
    /// it is the map's size.
    pub fn lowest_free(&self, domain: usize) -> u32
        requires there { domain < length self.now }
        requires free { IsLowestFree (virq_at self.now domain) None → ⊥ }
        ensures { IsLowestFree (virq_at self.now domain) (Some result) }
    {
        self.maps[domain].lowest_free().unwrap()
    }

    /// Maps the number at each level of the path to the virq, which is above 0; the root's number
    /// first (`irq_domain_insert_irq`, `kernel/irq/irqdomain.c`, which begins with the line's own
    /// level). If memory is refused, what was written is given up again.
    pub fn write(&mut self, path: &Path, virq: u32) -> Result<(), NoMemory>
        requires few { length path.now ≤ 8 }
        requires virq { 0 < virq }
        requires room { HasRoom self.old path.now }
        ensures ok { OnOk result ((domain hw : ℕ)
            → virq_at self.new domain hw ≡ with_path path.now virq (virq_at self.old) domain hw) }
        ensures err { OnErr result ((domain hw : ℕ)
            → virq_at self.new domain hw ≡ virq_at self.old domain hw) }
        ensures sizes { sizes self.new ≡ sizes self.old }
    {
        self.write_from(path, 0, virq)
    }

    /// Gives up the numbers of all levels of the path (`irq_domain_free_irqs`,
    /// `kernel/irq/irqdomain.c`).
    pub fn give_up(&mut self, path: &Path)
        requires few { length path.now ≤ 8 }
        ensures numbers { (domain hw : ℕ) → virq_at self.new domain hw
            ≡ without_path path.now (virq_at self.old) domain hw }
        ensures sizes { sizes self.new ≡ sizes self.old }
    {
        self.give_up_from(path, 0);
    }

    // Writes the levels from index `from` on.
    fn write_from(&mut self, path: &Path, from: usize, virq: u32) -> Result<(), NoMemory>
        requires few { length path.now ≤ 8 }
        requires virq { 0 < virq }
        requires room { HasRoom self.old (drop from path.now) }
        ensures ok { OnOk result ((domain hw : ℕ)
            → virq_at self.new domain hw ≡ with_path (drop from path.now) virq (virq_at self.old)
            domain hw) }
        ensures err { OnErr result ((domain hw : ℕ)
            → virq_at self.new domain hw ≡ virq_at self.old domain hw) }
        ensures sizes { sizes self.new ≡ sizes self.old }
    {
        let Some((domain, hw)) = path.get(from) else {
            return Ok(());
        };
        self.write_from(path, from + 1, virq)?;
        match self.associate(domain, hw, virq) {
            AssocAnswer::Ok => Ok(()),
            _ => {
                self.give_up_from(path, from + 1);
                Err(NoMemory)
            }
        }
    }

    // Gives up the levels from index `from` on.
    fn give_up_from(&mut self, path: &Path, from: usize)
        requires few { length path.now ≤ 8 }
        ensures numbers { (domain hw : ℕ) → virq_at self.new domain hw
            ≡ without_path (drop from path.now) (virq_at self.old) domain hw }
        ensures sizes { sizes self.new ≡ sizes self.old }
    {
        let Some((domain, hw)) = path.get(from) else {
            return;
        };
        self.dispose(domain, hw);
        self.give_up_from(path, from + 1);
    }

    // Maps one number.
    fn associate(&mut self, domain: usize, hw: u32, virq: u32) -> AssocAnswer
        requires virq { 0 < virq }
        requires within { is_within (sizes self.old) (domain, hw) ≡ true }
        requires free { virq_at self.old domain hw ≡ None }
        ensures numbers { (d k : ℕ) → virq_at self.new d k
            ≡ (if is_associated result && is_level d k (domain, hw) then Some virq else virq_at
            self.old d k) }
        ensures sizes { sizes self.new ≡ sizes self.old }
    {
        self.maps[domain].associate(virq, hw)
    }

    // Gives up one number, if the domain is there.
    fn dispose(&mut self, domain: usize, hw: u32)
        ensures numbers { (d k : ℕ) → virq_at self.new d k
            ≡ (if is_level d k (domain, hw) then None else virq_at self.old d k) }
        ensures sizes { sizes self.new ≡ sizes self.old }
    {
        if domain < self.maps.len() {
            self.maps[domain].dispose(hw);
        }
    }
}
