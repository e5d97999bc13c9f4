//! Walks over the levels of a domain's way to its root, and of a path.
ghost use Rattle.std.specs.Prelude.{◌≡◌, ◌≤◌, is_some, length, drop, take, map, slice_get};
ghost use Rattle.std.specs.List.{list_any};
ghost use Rattle.domain_rules.specs.Layout.{is_past_domain, is_past_path};
ghost use Rattle.domain_rules.specs.Levels.{masks_kind, masking_kind};
ghost use Rattle.domain_rules.specs.Paths.{kind_in, parent_in, way, kinds_on};
ghost use Rattle.domain_hier.specs.Hierarchies.{IsPlaced, chain_of, root_number};
ghost use Rattle.domain_rules.specs.Domains.{EachAfter, IsDomainAfter};

use domain_chain::Chain;
use irq_base::domains::LEVELS;
use irq_base::{ControllerKind, DomainDef, MapKind, Path};

/// The domain at `place`; none if there are no more than `place` domains.
pub(crate) fn domain_at(domains: &[DomainDef], place: usize) -> Option<DomainDef>
    ensures { result ≡ slice_get domains.now place }
{
    domains.get(place).copied()
}

/// The kind of a domain; a domain that isn't there counts as one that passes everything on.
pub(crate) fn kind_of(def: Option<DomainDef>) -> ControllerKind
    ensures { result ≡ kind_in def }
{
    match def {
        Some(def) => def.kind,
        None => ControllerKind::Remap,
    }
}

/// The place of a domain's parent; none for a root.
pub(crate) fn parent_of(def: Option<DomainDef>) -> Option<usize>
    ensures { result ≡ parent_in def }
{
    def?.parent
}

/// Whether one of the levels from a domain to its root, at most `left` of them, can mask.
pub(crate) fn can_mask(domains: &[DomainDef], left: usize, at: Option<usize>) -> bool
    ensures { result ≡ is_some (masking_kind (map (λ place. kind_in (slice_get domains.now place))
        (way left domains.now at))) }
{
    let Some(place) = at else {
        return false;
    };
    if left == 0 {
        return false;
    }
    let def = domain_at(domains, place);
    masks(kind_of(def)) || can_mask(domains, left - 1, parent_of(def))
}

// Whether a level of this kind can mask.
fn masks(kind: ControllerKind) -> bool
    ensures { result ≡ masks_kind kind }
{
    !matches!(kind, ControllerKind::Remap | ControllerKind::Vector)
}

/// Whether the number at some level of the path, from index `from` on, doesn't fit its domain's
/// map.
pub(crate) fn is_past(domains: &[DomainDef], path: &Path, from: usize) -> bool
    requires few { length path.now ≤ 8 }
    ensures { result ≡ list_any (is_past_path domains.now) (drop from path.now) }
{
    let Some((place, number)) = path.get(from) else {
        return false;
    };
    is_past_map(domain_at(domains, place), number) || is_past(domains, path, from + 1)
}

// Whether the number doesn't fit the domain's map.
fn is_past_map(def: Option<DomainDef>, number: u32) -> bool
    ensures { result ≡ is_past_domain def number }
{
    let Some(def) = def else {
        return false;
    };
    match def.map {
        MapKind::Linear(size) => number >= size,
        MapKind::Tree => false,
    }
}

/// The chip of the path.
pub(crate) fn chain_on(domains: &[DomainDef], path: &Path) -> Chain
    requires each { EachAfter IsDomainAfter domains.now }
    requires placed { IsPlaced domains.now path.now }
    ensures { result ≡ chain_of domains.now path.now }
{
    let kinds = kinds_of(domains, path);
    Chain::new(&kinds[..path.len()], root_number(path))
}

// The kinds of the path's levels, leaf first, at the beginning of the array.
fn kinds_of(domains: &[DomainDef], path: &Path) -> [ControllerKind; LEVELS]
    requires few { length path.now ≤ 8 }
    ensures { take (length path.now) result ≡ kinds_on domains.now path.now }
{
    let mut kinds = [ControllerKind::Remap; LEVELS];
    let mut i = 0;
    while let Some((place, _)) = path.get(i) {
        kinds[i] = kind_of(domain_at(domains, place));
        i += 1;
    }
    kinds
}

// The number at the path's last level, the root's.
fn root_number(path: &Path) -> u32
    requires { 1 ≤ length path.now }
    ensures { result ≡ root_number path.now }
{
    match path.get(path.len() - 1) {
        Some((_, number)) => number,
        None => 0,
    }
}
