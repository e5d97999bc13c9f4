//! The list of a line's entries; room for more can be taken beforehand.
ghost use Rattle.std.specs.Prelude.{◌≡◌, ℕ, ◌+◌, ◌-◌, ◌<◌, ◌≤◌, ◌==◌, [], ◌∷◌, ◌++◌, length};
ghost use Rattle.std.specs.Prelude.{IfOk, IfSome, OnOk, OnErr, Some, slice_get, option_map, true};
ghost use Rattle.irq_base.specs.EntryKinds.{kind_of_entry};
ghost use Rattle.irq_base.specs.Packed.{is_wide, place_of, unpack};

use crate::entries::Entry;
use crate::kinds::EntryKind;
use crate::memory::NoMemory;
use crate::packed::Packed;
use std::alloc::Global;
use std::marker::Model;

/// The entries that the holds of a line's lock added. Contracts see its entries, the oldest first,
/// and `spare`, how many more fit without memory.
///
/// An entry takes eight bytes. Only wide entries stand in a list of their own: those with a number
/// that no board has, as a processor or a device above 65,535.
#[derive(Drop)]
pub struct History {
    words: Vec<Packed>,
    wide: Vec<Entry>,
}

impl Model for History {
    ghost use Rattle.std.specs.Prelude.{◌-◌, min, map, length, All, vec_len, vec_capacity};
    ghost use Rattle.irq_base.specs.Seen.{HistorySeen};
    ghost use Rattle.irq_base.specs.Packed.{unpack, IsPlaced};

    ghost Value = { HistorySeen };

    ghost view = { λ h. record {
      entries = map (unpack h.wide.items) h.words.items;
      spare = min (vec_capacity h.words - vec_len h.words)
          (vec_capacity h.wide - vec_len h.wide);
    } };

    ghost invariant = { λ h. All (IsPlaced (length h.wide.items)) h.words.items };
}

impl History {
    /// The empty history, with room for `n` entries. The only error is `NoMemory`.
    pub fn with_room(alloc: Global, n: usize) -> Result<History, NoMemory>
        ensures empty { IfOk result (λ h. h.entries ≡ []) }
        ensures room { IfOk result (λ h. n ≤ h.spare) }
    {
        let words = Vec::with_capacity(alloc, n)?;
        let wide = Vec::with_capacity(alloc, n)?;
        Ok(History { words, wide })
    }

    /// Makes room for `n` more entries. If it is refused, all is as before.
    pub fn reserve(&mut self, n: usize) -> Result<(), NoMemory>
        ensures room { OnOk result (n ≤ self.new.spare) }
        ensures same { self.new.entries ≡ self.old.entries }
        ensures refused { OnErr result (self.new ≡ self.old) }
    {
        // The roomier one grows first: if the other is refused, the smaller room is as it was.
        let words_room = self.words.capacity() - self.words.len();
        let wide_room = self.wide.capacity() - self.wide.len();
        if words_room <= wide_room {
            self.wide.reserve(n)?;
            self.words.reserve(n)?;
        } else {
            self.words.reserve(n)?;
            self.wide.reserve(n)?;
        }
        Ok(())
    }

    /// Adds the entry at the end of a history with room for it. It takes no memory.
    #[inline(always)]
    pub fn push(&mut self, entry: Entry)
        requires { 1 ≤ self.old.spare }
        ensures entries { self.new.entries ≡ self.old.entries ++ entry ∷ [] }
        ensures spare { self.old.spare ≤ self.new.spare + 1 }
    {
        match Packed::pack(entry) {
            Some(word) => self.words.push_reserved(word),
            None => {
                let word = next_wide(&self.wide);
                self.wide.push_reserved(entry);
                self.words.push_reserved(word);
            }
        }
    }

    /// The number of entries.
    pub fn len(&self) -> usize
        ensures { result ≡ length self.now.entries }
    {
        self.words.len()
    }

    /// Whether there are no entries.
    pub fn is_empty(&self) -> bool
        ensures { result ≡ (length self.now.entries == 0) }
    {
        self.words.is_empty()
    }

    /// The entry at index `place`, counted from 0; none from the length on.
    pub fn get(&self, place: usize) -> Option<Entry>
        ensures { result ≡ slice_get self.now.entries place }
    {
        let word = *self.words.get(place)?;
        Some(word.unpack(&self.wide))
    }

    /// The kind of the entry at index `place`, counted from 0; none from the length on. The entry
    /// itself isn't made.
    pub fn kind(&self, place: usize) -> Option<EntryKind>
        ensures { result ≡ option_map kind_of_entry (slice_get self.now.entries place) }
    {
        let word = *self.words.get(place)?;
        Some(word.kind(&self.wide))
    }

    /// The word of the entry at index `place`, counted from 0, if it holds the entry whole; none
    /// from the length on, and of a wide entry.
    pub fn word(&self, place: usize) -> Option<Packed>
        ensures { IfSome result (λ w. slice_get self.now.entries place ≡ Some (unpack [] w)) }
    {
        let word = *self.words.get(place)?;
        word.narrow()
    }

    /// How many more entries fit without memory.
    pub fn spare(&self) -> usize
        ensures { result ≡ self.now.spare }
    {
        let words_room = self.words.capacity() - self.words.len();
        let wide_room = self.wide.capacity() - self.wide.len();
        words_room.min(wide_room)
    }
}

/// The word of the next wide entry. Its place fits: an entry takes twenty bytes, and a list at most
/// 2^63 - 1.
fn next_wide(wide: &[Entry]) -> Packed
    ensures wide { is_wide result ≡ true }
    ensures place { place_of result ≡ length wide.now }
{
    Packed::of_place(wide.len() as u64)
}
