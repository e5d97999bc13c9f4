//! An entry in one word.
ghost use Rattle.std.specs.Prelude.{◌≡◌, ℕ, ◌<◌, ◌^◌, Bool, true, false, is_some, IfSome, List};
ghost use Rattle.std.specs.Prelude.{[], get_or};
ghost use Rattle.irq_base.specs.EntryKinds.{kind_of_entry};
ghost use Rattle.irq_base.specs.Packed.{parts_of, is_wide, place_of, unpack, is_narrow, nothing};

use crate::entries::{Entry, ThreadEntry};
use crate::kinds::{EntryKind, kind_of};
use crate::numbers::DevNo;
use crate::parts::{Content, Parts};

/// One entry in a word, or the place of a wide entry. From its low end the word has two bits that
/// say who made the entry, four of its kind, a code of 8, a first number of 16 and a second of 32.
/// If the lowest two say 3, all other bits are a place in the list of wide entries.
#[derive(Clone, Copy, PartialEq, Eq)]
pub struct Packed(u64);

// How many numbers each part has, from the low end.
const MAKERS: u64 = 4;

const KINDS: u64 = 16;

const CODES: u64 = 256;

const FIRSTS: u64 = 65_536;

const SECONDS: u64 = 4_294_967_296;

/// What a word that holds the place of a wide entry has where others say who made them.
const WIDE: u64 = 3;

impl Packed {
    /// The word made of these parts.
    pub(crate) fn of_parts(parts: Parts) -> Packed
        requires who { parts.who < 3 }
        requires kind { parts.content.kind < 16 }
        requires code { parts.content.code < 256 }
        requires first { parts.first < 65536 }
        ensures narrow { is_wide result ≡ false }
        ensures parts { parts_of result ≡ parts }
    {
        let first = u64::from(parts.first) + FIRSTS * u64::from(parts.content.second);
        let code = u64::from(parts.content.code) + CODES * first;
        let kind = u64::from(parts.content.kind) + KINDS * code;
        Packed(u64::from(parts.who) + MAKERS * kind)
    }

    /// The word that holds a place in the list of wide entries.
    pub(crate) fn of_place(place: u64) -> Packed
        requires { place < 2 ^ 62 }
        ensures wide { is_wide result ≡ true }
        ensures place { place_of result ≡ place }
    {
        Packed(WIDE + MAKERS * place)
    }

    /// The parts of the word.
    pub(crate) fn parts(self) -> Parts
        ensures { result ≡ parts_of self }
    {
        let kind = self.0 / MAKERS;
        let code = kind / KINDS;
        let first = code / CODES;
        let second = first / FIRSTS;
        let content = Content {
            kind: (kind % KINDS) as u32,
            code: (code % CODES) as u32,
            second: (second % SECONDS) as u32,
        };
        Parts {
            who: (self.0 % MAKERS) as u32,
            first: (first % FIRSTS) as u32,
            content,
        }
    }

    /// The word of the entry; none if one of its numbers is too large.
    #[inline(always)]
    pub fn pack(entry: Entry) -> Option<Packed>
        ensures narrow { is_some result ≡ is_narrow entry }
        ensures tag { IfSome result (λ w. is_wide w ≡ false) }
        ensures back { IfSome result (λ w. (wide : List Entry) → unpack wide w ≡ entry) }
    {
        let parts = Parts::of_entry(entry)?;
        Some(Packed::of_parts(parts))
    }

    /// The word as a number, by which tables are looked up.
    pub fn number(self) -> u64
        ensures { result ≡ self.0 }
    {
        self.0
    }

    /// The word itself, if it holds its entry whole.
    #[tactic(auto, unfolding(crate::specs::Packed::unpack))]
    pub(crate) fn narrow(self) -> Option<Packed>
        ensures { IfSome result (λ w. (wide : List Entry) → unpack wide self ≡ unpack [] w) }
    {
        if self.0 % MAKERS == WIDE {
            return None;
        }
        Some(self)
    }

    /// The entry that the word stands for; `wide` is the list of wide entries.
    #[tactic(auto, unfolding(crate::specs::Packed::unpack))]
    pub fn unpack(self, wide: &[Entry]) -> Entry
        ensures { result ≡ unpack wide.now self }
    {
        if self.0 % MAKERS == WIDE {
            return entry_at(wide, self.0 / MAKERS);
        }
        self.parts().entry()
    }

    /// The kind of the entry that the word stands for; `wide` is the list of wide entries.
    #[tactic(auto, unfolding(crate::specs::Packed::unpack))]
    pub fn kind(self, wide: &[Entry]) -> EntryKind
        ensures { result ≡ kind_of_entry (unpack wide.now self) }
    {
        if self.0 % MAKERS == WIDE {
            return kind_of(entry_at(wide, self.0 / MAKERS));
        }
        self.parts().kind()
    }
}

/// The wide entry at index `place`.
fn entry_at(wide: &[Entry], place: u64) -> Entry
    ensures { result ≡ get_or wide.now place nothing }
{
    match wide.get(place as usize) {
        Some(entry) => *entry,
        None => Entry::Thread(DevNo(0), ThreadEntry::Done),
    }
}
