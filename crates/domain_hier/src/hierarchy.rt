//! The hierarchy.
ghost use Rattle.std.specs.Prelude.{◌≡◌, ◌≤◌, ◌<◌, ◌+◌, ◌++◌, ℕ, true, [], ◌∷◌, Some, None};
ghost use Rattle.std.specs.Prelude.{is_some, IfOk, IfSome, OnOk, OnErr, length, slice_get};
ghost use Rattle.std.specs.Prelude.{if◌then◌else◌};
ghost use Rattle.revmap.specs.declared.map.DisposeAnswer.TheVariants as disposed;
ghost use Rattle.domain_maps.specs.Numbers.{virq_at, sizes, with_path, HasRoom};
ghost use Rattle.domain_rules.specs.Domains.{IsDomainAfter};
ghost use Rattle.domain_rules.specs.Layout.{path_of, lowest_unused};
ghost use Rattle.domain_rules.specs.Paths.{way};
ghost use Rattle.domain_hier.specs.Hierarchies.{HierarchySeen, IsAnswered, alloc_answer};
ghost use Rattle.domain_hier.specs.Hierarchies.{after_alloc, chain_of};
ghost use Rattle.domain_hier.specs.PathsInUse.{path_in, first_free, lowest_virq, placed, freed};
ghost use Rattle.domain_hier.specs.PathsInUse.{in_use, lowest_levels};

use crate::answers::AllocAnswer;
use crate::levels::{can_mask, chain_on, domain_at, is_past, parent_of};
use crate::paths::PathTable;
use domain_chain::Chain;
use domain_maps::DomainMaps;
use irq_base::domains::LEVELS;
use irq_base::{DomainDef, NoMemory, Path};
use revmap::DisposeAnswer;
use std::alloc::Global;
use std::marker::Model;

/// Domains, and the lines that are allocated in them (`struct irq_domain`,
/// `include/linux/irqdomain.h`). Contracts see the list of the domains and the finite map from the
/// virqs in use to their paths.
#[derive(Drop)]
pub struct Hierarchy {
    alloc: Global,
    domains: Vec<DomainDef>,
    maps: DomainMaps,
    paths: PathTable,
}

impl Model for Hierarchy {
    ghost use Rattle.domain_hier.specs.Hierarchies.{HierarchySeen, IsHierarchy};

    ghost Value = { HierarchySeen };

    ghost view = { λ h. record { domains = h.domains.items; paths = h.paths } };

    ghost invariant = { λ h. IsHierarchy h.domains.items h.maps h.paths };
}

impl Hierarchy {
    /// No domains. It takes no memory yet.
    pub fn new(alloc: Global) -> Hierarchy
        ensures { result ≡ record { domains = []; paths = [] } }
    {
        Hierarchy {
            alloc,
            domains: Vec::new(alloc),
            maps: DomainMaps::new(alloc),
            paths: PathTable::new(alloc),
        }
    }

    /// Adds the domain, which the domains before it allow, and answers its place
    /// (`irq_domain_create_hierarchy`). If it is refused, all is as before.
    pub fn add_domain(&mut self, def: DomainDef) -> Result<usize, NoMemory>
        requires { IsDomainAfter self.old.domains def }
        ensures place { IfOk result (λ place. place ≡ length self.old.domains) }
        ensures ok { OnOk result (self.new ≡ record self.old
            { domains = self.old.domains ++ def ∷ [] }) }
        ensures err { OnErr result (self.new ≡ self.old) }
    {
        let place = self.domains.len();
        self.domains.reserve(1)?;
        self.maps.push(self.alloc, def.map)?;
        self.domains.push_reserved(def);
        Ok(place)
    }

    /// Allocates the line with hardware number `hw` at place `domain`: it gets the lowest virq from
    /// 1 that isn't in use, and the lowest free number at each level above
    /// (`irq_domain_alloc_irqs_locked`, `kernel/irq/irqdomain.c`; which virq and which numbers it
    /// gets is ours). Any other answer changes nothing.
    pub fn alloc(&mut self, domain: usize, hw: u32) -> AllocAnswer
        requires there { domain < length self.old.domains }
        requires few { length (in_use self.old.paths) < 4294967295 }
        ensures answer { IsAnswered (alloc_answer self.old (domain, hw)) result }
        ensures after { self.new ≡ after_alloc result self.old (domain, hw) }
        ensures domains { self.new.domains ≡ self.old.domains }
        ensures count { length (in_use self.new.paths) ≤ length (in_use self.old.paths) + 1 }
    {
        if !can_mask(self.domains.as_slice(), LEVELS, Some(domain)) {
            return AllocAnswer::NoMask;
        }
        let path = self.path_to(domain, hw);
        if is_past(self.domains.as_slice(), &path, 0) {
            return AllocAnswer::OutOfRange;
        }
        if self.maps.virq(domain, hw).is_some() {
            return AllocAnswer::Taken;
        }
        let Ok(virq) = write(&mut self.maps, &mut self.paths, path) else {
            return AllocAnswer::NoMemory;
        };
        AllocAnswer::Ok(virq)
    }

    /// Gives up the numbers of all levels of the virq's path (`irq_domain_free_irqs`,
    /// `kernel/irq/irqdomain.c`).
    pub fn free(&mut self, virq: u32) -> DisposeAnswer
        ensures answer { result ≡ (if is_some (path_in self.old.paths virq) then disposed.Ok else
            disposed.NotThere) }
        ensures after { self.new ≡ record self.old { paths = freed self.old.paths virq } }
        ensures count { length (in_use self.new.paths) ≤ length (in_use self.old.paths) }
    {
        let Some(path) = self.path(virq) else {
            return DisposeAnswer::NotThere;
        };
        self.maps.give_up(&path);
        self.paths.remove(virq as usize - 1);
        DisposeAnswer::Ok
    }

    /// The path of the virq, leaf first: pairs of a domain's place and the number there; none if
    /// the virq isn't in use.
    pub fn path(&self, virq: u32) -> Option<Path>
        ensures { result ≡ path_in self.now.paths virq }
    {
        if virq == 0 {
            return None;
        }
        self.paths.get(virq as usize - 1)
    }

    /// The chip of the virq's whole path, to which nothing has been done. The virq is in use.
    pub fn chain(&self, virq: u32) -> Chain
        requires { is_some (path_in self.now.paths virq) ≡ true }
        ensures { IfSome (path_in self.now.paths virq)
            (λ path. result ≡ chain_of self.now.domains path) }
    {
        let path = self.path(virq).unwrap();
        chain_on(self.domains.as_slice(), &path)
    }

    // The path of the new line: its own number, and the lowest free number at each level above.
    fn path_to(&self, domain: usize, hw: u32) -> Path
        requires there { domain < length self.now.domains }
        requires few { length (in_use self.now.paths) < 4294967295 }
        ensures { result ≡ path_of self.now.domains (in_use self.now.paths) (domain, hw) }
    {
        let mut path = Path::new();
        path.push((domain, hw));
        let above = parent_of(domain_at(self.domains.as_slice(), domain));
        self.push_levels(&mut path, LEVELS - 1, above);
        path
    }

    // Adds the lowest free numbers from a domain to its root, at most `left` of them.
    fn push_levels(&self, path: &mut Path, left: usize, at: Option<usize>)
        requires room { length path.old + left ≤ 8 }
        requires there { IfSome at (λ place. place < length self.now.domains) }
        requires few { length (in_use self.now.paths) < 4294967295 }
        ensures { path.new ≡ path.old ++ lowest_levels (in_use self.now.paths)
            (way left self.now.domains at) }
    {
        let Some(place) = at else {
            return;
        };
        if left == 0 {
            return;
        }
        path.push((place, self.lowest_free(place)));
        let above = parent_of(domain_at(self.domains.as_slice(), place));
        self.push_levels(path, left - 1, above);
    }

    // The lowest number that no path in use has at the domain.
    fn lowest_free(&self, domain: usize) -> u32
        requires there { domain < length self.now.domains }
        requires few { length (in_use self.now.paths) < 4294967295 }
        ensures { result ≡ lowest_unused (in_use self.now.paths) domain }
    {
        self.maps.lowest_free(domain)
    }
}

// Writes the path for the lowest virq that isn't in use. If memory is refused, all is as before.
fn write(maps: &mut DomainMaps, paths: &mut PathTable, path: Path) -> Result<u32, NoMemory>
    requires few { length path ≤ 8 }
    requires room { HasRoom maps.old path }
    requires virq { first_free paths.old < 4294967295 }
    ensures virq { IfOk result (λ virq. virq ≡ lowest_virq paths.old) }
    ensures ok { OnOk result ((domain hw : ℕ)
        → virq_at maps.new domain hw ≡ with_path path (lowest_virq paths.old) (virq_at maps.old)
        domain hw) }
    ensures err { OnErr result ((domain hw : ℕ)
        → virq_at maps.new domain hw ≡ virq_at maps.old domain hw) }
    ensures sizes { sizes maps.new ≡ sizes maps.old }
    ensures placed { OnOk result (paths.new ≡ placed paths.old path) }
    ensures kept { OnErr result (paths.new ≡ paths.old) }
{
    let virq = paths.first_free() as u32 + 1;
    maps.write(&path, virq)?;
    if paths.put(path).is_err() {
        maps.give_up(&path);
        return Err(NoMemory);
    }
    Ok(virq)
}
