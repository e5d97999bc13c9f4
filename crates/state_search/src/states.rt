//! The states that were found.
ghost use Rattle.std.specs.Prelude.{◌≡◌, ◌<◌, ◌≤◌, ℕ, true, false, [], ◌∷◌, ◌++◌, ◌↔◌, IsTrue};
ghost use Rattle.std.specs.Prelude.{IfSome, IfOk, OnOk, length, slice_get, Some};
ghost use Rattle.state_search.specs.Growing.{IsIn, IsPut, ArePut, LeavesOne};
ghost use Rattle.state_search.specs.Packed.{IsPacked, unpacked};
ghost use Rattle.state_search.specs.Paths.{path_by, paths_of, states_of};

use crate::found::Found;
use crate::packing::{pack, unpack};
use indexmap::IndexMap;
use irq_base::NoMemory;
use std::alloc::Global;
use std::marker::Model;

/// How a state was reached: the place of the state before it, and the label.
#[derive(Clone, Copy)]
pub(crate) struct Came<L: Copy> {
    pub(crate) from: u32,
    pub(crate) label: L,
}

/// The states that were found, in order, each once. A state is looked up by all its numbers, which
/// are kept packed. Contracts see the numbers of each state, and how it was reached.
#[derive(Drop)]
pub(crate) struct States<L: Copy> {
    rows: IndexMap<Vec<u8>, Option<Came<L>>>,
}

impl<L: Copy> Model for States<L> {
    ghost use Rattle.std.specs.Prelude.{List, ℕ, Option};
    ghost use Rattle.state_search.specs.declared.states.Came.{Came};

    ghost Value = { List (List ℕ × Option (Came L)) };

    ghost use Rattle.state_search.specs.Growing.{AreRooted};
    ghost use Rattle.state_search.specs.Rows.{rows_of, ArePacked};

    ghost view = { λ s. rows_of s.rows.entries };

    ghost invariant = { λ s. AreRooted (rows_of s.rows.entries) × ArePacked s.rows.entries };
}

impl<L: Copy> States<L> {
    /// No state. It takes no memory yet.
    pub(crate) fn new(alloc: Global) -> States<L>
        ensures { result ≡ [] }
    {
        States {
            rows: IndexMap::new(alloc),
        }
    }

    /// How many states there are.
    pub(crate) fn len(&self) -> usize
        ensures { result ≡ length self.now }
    {
        self.rows.len()
    }

    /// Puts the numbers of the state at index `place` into `words`, in place of what is there. The
    /// only error is `NoMemory`.
    pub(crate) fn words(&self, place: usize, words: &mut Vec<u32>) -> Result<(), NoMemory>
        requires { place < length self.now }
        ensures { OnOk result (slice_get (states_of self.now) place ≡ Some words.new.items) }
    {
        words.clear();
        match self.rows.get_index(place) {
            Some((packed, _)) => unpack(words, packed.as_slice())?,
            None => unreachable!(),
        }
        Ok(())
    }

    /// How the state at index `place` was reached; none for the first state.
    pub(crate) fn came(&self, place: usize) -> Option<Came<L>>
        requires { place < length self.now }
        ensures earlier { IfSome result (λ came. came.from < place) }
        ensures path { slice_get (paths_of self.now) place
            ≡ Some (path_by (paths_of self.now) result) }
    {
        match self.rows.get_index(place) {
            Some((_, came)) => *came,
            None => unreachable!(),
        }
    }

    /// Whether the state with these packed numbers was found.
    fn has(&self, packed: &[u8]) -> bool
        requires { IsPacked packed.now }
        ensures { IsTrue result ↔ IsIn (states_of self.now) (unpacked packed.now) }
    {
        self.rows.contains_key(packed)
    }

    /// Adds a state with these packed numbers that wasn't found before, at the end. The only error
    /// is `NoMemory`.
    fn add(&mut self, alloc: Global, packed: &[u8], came: Option<Came<L>>) -> Result<(), NoMemory>
        requires packed { IsPacked packed.now }
        requires new { IsIn (states_of self.old) (unpacked packed.now) → ⊥ }
        requires earlier { IfSome came (λ came. came.from < length self.old) }
        ensures { OnOk result (self.new ≡ self.old ++ (unpacked packed.now, came) ∷ []) }
    {
        let mut key = Vec::with_capacity(alloc, packed.len())?;
        key.extend_from_slice(packed)?;
        self.rows.insert(key, came)?;
        Ok(())
    }

    /// Adds the first state. The only error is `NoMemory`.
    pub(crate) fn start(&mut self, alloc: Global, words: &[u32]) -> Result<(), NoMemory>
        requires { self.old ≡ [] }
        ensures { OnOk result (self.new ≡ (words.now, None) ∷ []) }
    {
        let mut packed = Vec::new(alloc);
        pack(&mut packed, words)?;
        self.add(alloc, packed.as_slice(), None)
    }

    /// Adds the state, if it wasn't found before. False if it is new and there are `most` states
    /// already. The only error is `NoMemory`. `packed` is room for its packed numbers.
    fn put(
        &mut self,
        alloc: Global,
        words: &[u32],
        came: Came<L>,
        most: usize,
        packed: &mut Vec<u8>,
    ) -> Result<bool, NoMemory>
        requires earlier { came.from < length self.old }
        ensures { IfOk result (λ fits. IsPut came words.now most self.old self.new fits) }
    {
        packed.clear();
        pack(packed, words)?;
        if self.has(packed.as_slice()) {
            return Ok(true);
        }
        if self.len() == most {
            return Ok(false);
        }
        self.add(alloc, packed.as_slice(), Some(came))?;
        Ok(true)
    }

    /// Adds the states found after the state at `from`, each once. False if one of them is new and
    /// there are `most` states already. The only error is `NoMemory`. `packed` is room for the
    /// packed numbers of one.
    pub(crate) fn put_all(
        &mut self,
        alloc: Global,
        from: u32,
        found: &Found<L>,
        most: usize,
        packed: &mut Vec<u8>,
    ) -> Result<bool, NoMemory>
        requires earlier { from < length self.old }
        requires few { length self.old ≤ most }
        ensures put { IfOk result (λ whole. (n : ℕ) × ArePut from found.now n self.old self.new
            × (whole ≡ true → length found.now ≤ n)) }
        ensures full { IfOk result (λ whole. whole ≡ false → length self.new ≡ most) }
        ensures left { IfOk result (λ whole. whole ≡ false → LeavesOne found.now self.new) }
        ensures few { OnOk result (length self.new ≤ most) }
    {
        for i in 0..found.len() {
            let (label, words) = found.get(i);
            if !self.put(alloc, words, Came { from, label }, most, packed)? {
                return Ok(false);
            }
        }
        Ok(true)
    }
}
