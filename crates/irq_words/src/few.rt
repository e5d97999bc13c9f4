//! A list that is kept in the value itself.
ghost use Rattle.std.specs.Prelude.{◌≡◌, ◌<◌, ◌≤◌, List, [], ◌∷◌, ◌++◌, length};

use std::marker::Model;

/// The most items of a list.
pub(crate) const MOST: usize = 64;

/// A list of at most 64 items, for which no memory is taken. Contracts see the list.
#[derive(Drop)]
pub struct Few<T> {
    items: [T; MOST],
    len: usize,
}

impl<T> Model for Few<T> {
    ghost use Rattle.std.specs.Prelude.{◌≡◌, ◌≤◌, List, length, take};
    ghost use Rattle.std.specs.Coded.{coded_list};

    ghost Value = { List T };

    ghost coded = { coded_list T.code };

    ghost view = { λ f. take f.len f.items };

    ghost invariant = { λ f. (f.len ≤ 64) × (length f.items ≡ 64) };
}

impl<T: Copy> Few<T> {
    /// The empty list. `blank` stands where no item is.
    pub(crate) fn new(blank: T) -> Few<T>
        ensures { result ≡ [] }
    {
        Few {
            items: [blank; MOST],
            len: 0,
        }
    }

    /// Adds the item at the end.
    pub(crate) fn push(&mut self, item: T)
        requires { length self.old < 64 }
        ensures { self.new ≡ self.old ++ item ∷ [] }
    {
        self.items[self.len] = item;
        self.len += 1;
    }

    /// The items, in order.
    pub fn as_slice(&self) -> &[T]
        ensures value { result.now ≡ self.now }
        ensures few { length result.now ≤ 64 }
    {
        &self.items[..self.len]
    }
}
