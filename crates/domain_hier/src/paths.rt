//! The paths of the virqs in use.
ghost use Rattle.std.specs.Prelude.{◌≡◌, ◌≤◌, ◌<◌, ◌+◌, ℕ, [], None, length, drop, OnOk, OnErr};
ghost use Rattle.std.specs.Prelude.{slice_index_or, slice_set};
ghost use Rattle.domain_hier.specs.PathsInUse.{slot, first_free, placed};

use irq_base::{NoMemory, Path};
use std::alloc::Global;
use std::marker::Model;

/// The paths in use, each at a place of its own, and the first free place. Contracts see the list
/// of the places.
#[derive(Drop)]
pub(crate) struct PathTable {
    paths: Vec<Option<Path>>,
    free: usize,
}

impl Model for PathTable {
    ghost use Rattle.std.specs.Prelude.{◌≡◌, ℕ, List, Option};
    ghost use Rattle.domain_hier.specs.PathsInUse.{first_free};

    ghost Value = { List (Option (List (ℕ × ℕ))) };

    ghost view = { λ t. t.paths.items };

    ghost invariant = { λ t. t.free ≡ first_free t.paths.items };
}

impl PathTable {
    /// The table with no path in use. It takes no memory yet.
    pub(crate) fn new(alloc: Global) -> PathTable
        ensures { result ≡ [] }
    {
        PathTable {
            paths: Vec::new(alloc),
            free: 0,
        }
    }

    /// The path at `place`; none if the place is free.
    pub(crate) fn get(&self, place: usize) -> Option<Path>
        ensures { result ≡ slot self.now place }
    {
        if place < self.paths.len() {
            self.paths[place]
        } else {
            None
        }
    }

    /// The first place that is free.
    pub(crate) fn first_free(&self) -> usize
        ensures { result ≡ first_free self.now }
    {
        self.free
    }

    /// Puts the path at the first place that is free. If it is refused, all is as before.
    pub(crate) fn put(&mut self, path: Path) -> Result<(), NoMemory>
        ensures ok { OnOk result (self.new ≡ placed self.old path) }
        ensures err { OnErr result (self.new ≡ self.old) }
    {
        store(&mut self.paths, self.free, path)?;
        self.free = next_free(self.paths.as_slice(), self.free);
        Ok(())
    }

    /// Frees the place, which has a path.
    pub(crate) fn remove(&mut self, place: usize)
        requires { place < length self.old }
        ensures { self.new ≡ slice_set self.old place None }
    {
        self.paths[place] = None;
        if place < self.free {
            self.free = place;
        }
    }
}

// Puts the path at the first place that is free.
fn store(paths: &mut Vec<Option<Path>>, free: usize, path: Path) -> Result<(), NoMemory>
    requires { free ≡ first_free paths.old.items }
    ensures ok { OnOk result (paths.new.items ≡ placed paths.old.items path) }
    ensures err { OnErr result (paths.new.items ≡ paths.old.items) }
{
    if free < paths.len() {
        paths[free] = Some(path);
    } else {
        paths.push(Some(path))?;
    }
    Ok(())
}

// The first free place; all places before `from` are in use.
fn next_free(paths: &[Option<Path>], from: usize) -> usize
    requires { first_free (drop from paths.now) + from ≡ first_free paths.now }
    ensures { result ≡ first_free paths.now }
{
    let mut place = from;
    while place < paths.len() && paths[place].is_some() {
        place += 1;
    }
    place
}
