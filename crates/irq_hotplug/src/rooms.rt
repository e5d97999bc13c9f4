//! A list with spare room.
ghost use Rattle.std.specs.Prelude.{◌≡◌, ◌+◌, ◌<◌, ◌≤◌, [], ◌∷◌, ◌++◌, IfOk, OnOk, OnErr, drop};
ghost use Rattle.std.specs.Prelude.{length, slice_index_or};

use irq_base::NoMemory;
use std::alloc::Global;
use std::marker::Model;

/// A list that says how many more items it takes without memory, so that nothing is refused once
/// something was changed.
#[derive(Drop)]
pub struct RoomList<T> {
    items: Vec<T>,
}

impl<T> Model for RoomList<T> {
    ghost use Rattle.std.specs.Prelude.{◌-◌, vec_len, vec_capacity};
    ghost use Rattle.irq_hotplug.specs.Rooms.{RoomSeen};

    ghost Value = { RoomSeen T };

    ghost view = { λ l. record {
      items = l.items.items;
      spare = vec_capacity l.items - vec_len l.items;
    } };
}

impl<T: Copy> RoomList<T> {
    /// An empty list with room for `n` items. The only error is `NoMemory`.
    pub fn with_room(alloc: Global, n: usize) -> Result<RoomList<T>, NoMemory>
        ensures empty { IfOk result (λ l. l.items ≡ []) }
        ensures room { IfOk result (λ l. n ≤ l.spare) }
    {
        let items = Vec::with_capacity(alloc, n)?;
        Ok(RoomList { items })
    }

    /// Makes room for `n` more items. If it is refused, the items are as before.
    pub fn reserve(&mut self, n: usize) -> Result<(), NoMemory>
        ensures room { OnOk result (n ≤ self.new.spare) }
        ensures same { self.new.items ≡ self.old.items }
    {
        self.items.reserve(n)?;
        Ok(())
    }

    /// Adds the item at the end, where there is room.
    pub fn put(&mut self, item: T)
        requires { 1 ≤ self.old.spare }
        ensures items { self.new.items ≡ self.old.items ++ item ∷ [] }
        ensures spare { self.old.spare ≡ self.new.spare + 1 }
    {
        self.items.push_reserved(item);
    }

    /// Adds the item at the end. If it is refused, the list is as before.
    pub fn push(&mut self, item: T) -> Result<(), NoMemory>
        ensures ok { OnOk result (self.new.items ≡ self.old.items ++ item ∷ []) }
        ensures err { OnErr result (self.new.items ≡ self.old.items) }
    {
        self.items.push(item)?;
        Ok(())
    }

    /// The items.
    pub fn as_slice(&self) -> &[T]
        ensures { result.now ≡ self.now.items }
    {
        self.items.as_slice()
    }
}

/// The item at index `place`, counted from 0.
#[tactic(auto, using(std::proofs::lemmas::List::drop_more))]
pub fn at<T: Copy>(items: &[T], place: usize) -> T
    requires { place < length items.now }
    ensures item { slice_index_or items.now place result ≡ result }
    ensures left { drop place items.now ≡ result ∷ drop (place + 1) items.now }
{
    items[place]
}
