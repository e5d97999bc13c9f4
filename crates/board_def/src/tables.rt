//! Tables of a board: rows in order, each found by its key.
ghost use Rattle.std.specs.Prelude.{◌≡◌, None, [], ◌∷◌, ◌++◌, length, position, slice_get, OnOk};
ghost use Rattle.std.specs.Prelude.{OnErr, All, ◌<◌};
ghost use Rattle.domain_rules.specs.Domains.{EachAfter};
ghost use Rattle.board_def.specs.Find.{last_item};
ghost use Rattle.board_def.specs.Runs.{with_thread};
ghost use Rattle.board_def.specs.Tables.{find_row};

use indexmap::IndexMap;
use irq_base::{DevNo, DeviceDef, Kind, NoMemory};
use std::alloc::Global;
use std::hash::Hash;
use std::marker::Model;

/// A row that is found by its key, which is its number or its name.
pub trait Keyed<K> {
    ghost use Rattle.std.specs.Prelude.{◌≡◌};

    /// The key of a row.
    ghost key_of: { Self → K };

    /// The row's key.
    fn key(&self) -> K
        ensures { result ≡ key_of self.now };
}

/// Rows in order; no two have the same key. Contracts see the list of the rows. A row is found by
/// its key in constant time.
#[derive(Drop)]
pub struct Table<K: Eq + Hash, T: Keyed<K>> {
    rows: IndexMap<K, T>,
}

impl<K: Eq + Hash, T: Keyed<K>> Model for Table<K, T> {
    ghost use Rattle.std.specs.Prelude.{List};
    ghost use Rattle.std.specs.Coded.{coded_list};

    ghost Value = { List T };

    ghost coded = { coded_list T.code };

    ghost use Rattle.board_def.specs.Tables.{values_of, IsKeyedBy};

    ghost view = { λ t. values_of t.rows.entries };

    ghost invariant = { λ t. IsKeyedBy T.Keyed.key_of t.rows.entries };
}

impl<K: Copy + Eq + Hash + Drop, T: Keyed<K> + Copy + Drop> Table<K, T> {
    /// The table without rows. It takes no memory yet.
    pub fn new(alloc: Global) -> Table<K, T>
        ensures { result ≡ [] }
    {
        Table {
            rows: IndexMap::new(alloc),
        }
    }

    /// Adds the row at the end. If it is refused, the table is as before.
    pub fn push(&mut self, row: T) -> Result<(), NoMemory>
        requires { find_row K.eq T.key_of self.old (T.key_of row) ≡ None }
        ensures ok { OnOk result (self.new ≡ self.old ++ row ∷ []) }
        ensures err { OnErr result (self.new ≡ self.old) }
    {
        self.rows.insert(row.key(), row)?;
        Ok(())
    }

    /// The number of rows.
    pub fn len(&self) -> usize
        ensures { result ≡ length self.now }
    {
        self.rows.len()
    }

    /// The row at index `place`, counted from 0; none from the length on.
    pub fn get(&self, place: usize) -> Option<T>
        ensures { result ≡ slice_get self.now place }
    {
        let (_, row) = self.rows.get_index(place)?;
        Some(*row)
    }

    /// The last row; none if the table is empty.
    #[tactic(auto, using(crate::proofs::Finds::last_at))]
    pub fn last(&self) -> Option<T>
        ensures { result ≡ last_item self.now }
    {
        self.get(self.len().saturating_sub(1))
    }

    /// The row with this key; none if there is no such row.
    pub fn find(&self, key: &K) -> Option<T>
        ensures { result ≡ find_row K.eq T.key_of self.now key.now }
    {
        self.rows.get(key).copied()
    }

    /// The place of the row with this key, counted from 0; none if there is no such row.
    pub fn place_of(&self, key: &K) -> Option<usize>
        ensures { result ≡ position (λ row. K.eq key.now (T.key_of row)) self.now }
    {
        self.rows.get_index_of(key)
    }
}

impl Table<DevNo, DeviceDef> {
    /// Gives the told device a thread, if there is such a device.
    pub fn set_thread(&mut self, dev: DevNo)
        requires rises { EachAfter (λ earlier x. All (λ e. e.dev.0 < x.dev.0) earlier) self.old }
        ensures { self.new ≡ with_thread dev self.old }
    {
        let Some(device) = self.find(&dev) else {
            return;
        };
        let threaded = DeviceDef {
            kind: Kind::Told { threaded: true },
            ..device
        };
        match self.rows.insert(dev, threaded) {
            Ok(_) => {}
            Err(_) => unreachable!(),
        }
    }
}
