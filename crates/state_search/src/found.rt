//! What may come next in a state.
ghost use Rattle.std.specs.Prelude.{◌≡◌, ◌<◌, [], ◌∷◌, ◌++◌, length, OnOk, OnErr};
ghost use Rattle.std.specs.Prelude.{slice_get, Some};

use irq_base::NoMemory;
use std::alloc::Global;
use std::marker::Model;

/// One label, and where the numbers of the state after it stand.
#[derive(Clone, Copy)]
pub(crate) struct Row<L: Copy> {
    label: L,
    from: usize,
    to: usize,
}

/// Labels, each with the numbers of the state to which it leads. The numbers of all states stand in
/// one list, so that a label takes no memory of its own, and no other numbers stand there.
#[derive(Drop)]
pub struct Found<L: Copy> {
    rows: Vec<Row<L>>,
    words: Vec<u32>,
}

impl<L: Copy> Model for Found<L> {
    ghost use Rattle.std.specs.Prelude.{List, ℕ};

    ghost Value = { List (L × List ℕ) };

    ghost use Rattle.state_search.specs.Rows.{found_in, AreOf};

    ghost view = { λ f. found_in f.rows.items f.words.items };

    ghost invariant = { λ f. AreOf f.rows.items f.words.items };
}

impl<L: Copy> Found<L> {
    /// Nothing. It takes no memory yet.
    pub fn new(alloc: Global) -> Found<L>
        ensures { result ≡ [] }
    {
        Found {
            rows: Vec::new(alloc),
            words: Vec::new(alloc),
        }
    }

    /// Adds a label and the numbers of the state after it, at the end. The only error is
    /// `NoMemory`, and then nothing is added.
    pub fn push(&mut self, label: L, words: &[u32]) -> Result<(), NoMemory>
        ensures added { OnOk result (self.new ≡ self.old ++ (label, words.now) ∷ []) }
        ensures refused { OnErr result (self.new ≡ self.old) }
    {
        let from = self.words.len();
        self.words.extend_from_slice(words)?;
        let to = self.words.len();
        let Ok(()) = self.rows.push(Row { label, from, to }) else {
            self.words.truncate(from);
            return Err(NoMemory);
        };
        Ok(())
    }

    /// How many labels there are.
    pub fn len(&self) -> usize
        ensures { result ≡ length self.now }
    {
        self.rows.len()
    }

    /// Takes all labels out, and keeps the memory.
    pub fn clear(&mut self)
        ensures { self.new ≡ [] }
    {
        self.rows.clear();
        self.words.clear();
    }

    /// The label at index `place`, with the numbers of the state after it.
    pub fn get(&self, place: usize) -> (L, &[u32])
        requires { place < length self.now }
        ensures { slice_get self.now place ≡ Some (result.0, result.1.now) }
    {
        let row = self.rows[place];
        (row.label, &self.words[row.from..row.to])
    }
}
