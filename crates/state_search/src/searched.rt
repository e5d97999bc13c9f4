//! What a search found.
ghost use Rattle.std.specs.Prelude.{◌≡◌, ◌≤◌, ◌<◌, ℕ, ◌+◌, [], IfOk, IfSome, IfNone};
ghost use Rattle.std.specs.Prelude.{OnOk, IsTrue, ◌↔◌, List, length, reverse, slice_get, Some};
ghost use Rattle.std.specs.Option.{option_map};
ghost use Rattle.state_search.specs.Firsts.{IsNoted, IsNotedAt};
ghost use Rattle.state_search.specs.Paths.{IsPath, LeavesOut};
ghost use Rattle.state_search.specs.Seen.{cut_of};
ghost use Rattle.state_search.specs.Steps.{IsUnder, IsStart, IsNext, NonePassed};

use crate::firsts::{First, note, place_of};
use crate::found::Found;
use crate::space::Space;
use crate::states::States;
use irq_base::NoMemory;
use std::alloc::Global;
use std::marker::Model;

/// Room for the numbers of one state, and for the packed numbers of one.
#[derive(Drop)]
pub(crate) struct Room {
    words: Vec<u32>,
    packed: Vec<u8>,
}

impl Room {
    /// No room yet.
    pub(crate) fn new(alloc: Global) -> Room {
        Room {
            words: Vec::new(alloc),
            packed: Vec::new(alloc),
        }
    }
}

/// What came of the look at a state.
#[derive(Clone, Copy)]
pub(crate) enum Look {
    /// All states that come after it fit.
    Whole,
    /// They don't.
    Cut,
    /// It is wanted, and what comes after it was left alone.
    Wanted,
}

/// What a search found: the states in the order in which it met them, each with a shortest path;
/// how many labels may come next in each that was looked at; and the labels, each with the place of
/// the first state in which it may come.
#[derive(Drop)]
pub struct Searched<L: Copy> {
    states: States<L>,
    firsts: Vec<First<L>>,
    counts: Vec<u32>,
}

impl<L: Copy> Model for Searched<L> {
    ghost use Rattle.state_search.specs.Seen.{SearchSeen, search_seen};

    ghost Value = { SearchSeen L };

    ghost view = { λ s. search_seen s.states s.firsts.items s.counts.items };
}

impl<L: Copy> Searched<L> {
    /// How many states were found.
    pub fn len(&self) -> usize
        ensures { result ≡ length self.now.paths }
    {
        self.states.len()
    }

    /// How many states, the first ones, were looked at for what comes next. They are all, if the
    /// search wasn't cut.
    pub fn looked(&self) -> usize
        ensures { result ≡ self.now.looked }
    {
        self.counts.len()
    }

    /// For each state that was looked at, how many labels may come next; 0 for one at rest.
    pub fn counts(&self) -> &[u32]
        ensures { result.now ≡ self.now.counts }
    {
        self.counts.as_slice()
    }

    /// If the search was cut: the length of paths from which on states may be unknown.
    pub fn cut(&self) -> Option<usize>
        ensures { result ≡ cut_of self.now }
    {
        if self.is_open() {
            Some(self.depth(self.looked()))
        } else {
            None
        }
    }

    /// The numbers of the state at index `place`, if there is one. The only error is `NoMemory`.
    pub fn state(&self, alloc: Global, place: usize) -> Result<Option<Vec<u32>>, NoMemory>
        ensures { IfOk result (λ state. option_map (λ words. words.items) state
            ≡ slice_get self.now.states place) }
    {
        if place >= self.states.len() {
            return Ok(None);
        }
        let mut words = Vec::new(alloc);
        self.states.words(place, &mut words)?;
        Ok(Some(words))
    }

    /// The length of the path to the state at index `place`.
    pub fn depth(&self, place: usize) -> usize
        requires { place < length self.now.paths }
        ensures { Some result ≡ option_map length (slice_get self.now.paths place) }
    {
        let mut steps = 0;
        let mut at = place;
        while let Some(came) = self.states.came(at) {
            at = came.from as usize;
            steps += 1;
        }
        steps
    }

    /// The path to the state at index `place`: its labels, the oldest first. The only error is
    /// `NoMemory`.
    pub fn path(&self, alloc: Global, place: usize) -> Result<Vec<L>, NoMemory>
        requires { place < length self.now.paths }
        ensures { IfOk result (λ path.
            slice_get self.now.paths place ≡ Some (reverse path.items)) }
    {
        let mut path = Vec::new(alloc);
        let mut at = place;
        while let Some(came) = self.states.came(at) {
            path.push(came.label)?;
            at = came.from as usize;
        }
        path.reverse();
        Ok(path)
    }

    /// The labels that may come, in the order of the places at which they came first.
    pub fn firsts(&self) -> &[First<L>]
        ensures { result.now ≡ self.now.firsts }
    {
        self.firsts.as_slice()
    }

    /// The place of the first state in which the label may come; none if the search didn't meet it.
    pub fn first(&self, label: L) -> Option<u32>
    where
        L: Eq,
        ensures some { IfSome result (λ n. IsNotedAt L.eq self.now.firsts label (λ m. m ≡ n)) }
        ensures none { IfNone result (IsNoted L.eq self.now.firsts label → ⊥) }
    {
        place_of(self.firsts.as_slice(), label)
    }

    /// A search that found the first state, and didn't look at what comes next. The only error is
    /// `NoMemory`.
    pub(crate) fn start<S: Space<L>>(alloc: Global, space: &mut S) -> Result<Searched<L>, NoMemory>
        ensures same { space.new ≡ space.old }
        ensures start { IfOk result (IsStart (S.node space.old)) }
    {
        let mut words = Vec::new(alloc);
        space.first(&mut words)?;
        let mut states = States::new(alloc);
        states.start(alloc, words.as_slice())?;
        Ok(Searched {
            states,
            firsts: Vec::new(alloc),
            counts: Vec::new(alloc),
        })
    }

    /// Whether there is a state that wasn't looked at for what comes next.
    pub(crate) fn is_open(&self) -> bool
        ensures { IsTrue result ↔ (self.now.looked < length self.now.paths) }
    {
        self.looked() < self.states.len()
    }

    /// Looks at the next state, and at what comes after it if it isn't wanted. The search is cut at
    /// `most` states. The only error is `NoMemory`.
    pub(crate) fn look<S: Space<L>>(
        &mut self,
        alloc: Global,
        space: &mut S,
        found: &mut Found<L>,
        room: &mut Room,
        most: usize,
    ) -> Result<Look, NoMemory>
    where
        L: Eq,
        requires open { self.old.looked < length self.old.paths }
        requires few { length self.old.paths ≤ most }
        requires most { most ≤ 100000000 }
        requires under { IsUnder L.eq (S.can space.old) (S.node space.old) self.old }
        requires none { NonePassed (S.can space.old) (S.node space.old) (S.wanted space.old)
            self.old }
        ensures same { space.new ≡ space.old }
        ensures few { OnOk result (length self.new.paths ≤ most) }
        ensures under { OnOk result (IsUnder L.eq (S.can space.old) (S.node space.old) self.new) }
        ensures none { OnOk result (NonePassed (S.can space.old) (S.node space.old)
            (S.wanted space.old) self.new) }
        ensures on { IfOk result (λ l. l ≡ Look.Whole → self.new.looked ≡ self.old.looked + 1) }
        ensures cut { IfOk result (λ l. l ≡ Look.Cut → length self.new.paths ≡ most) }
        ensures left_out { IfOk result (λ l. l ≡ Look.Cut
            → LeavesOut (S.can space.old) (S.node space.old) self.new.paths self.new.looked) }
        ensures wanted { IfOk result (λ l. l ≡ Look.Wanted → (g : List L)
            → IsPath (S.can space.old) g → IsNext (S.node space.old) self.new g
            → S.wanted space.old g) }
        ensures stays { IfOk result (λ l. l ≡ Look.Wanted → self.new ≡ self.old) }
    {
        let place = self.looked();
        self.states.words(place, &mut room.words)?;
        let words = room.words.as_slice();
        self.look_at(alloc, space, words, found, &mut room.packed, most)
    }

    /// The same, with the numbers of the next state at hand.
    fn look_at<S: Space<L>>(
        &mut self,
        alloc: Global,
        space: &mut S,
        words: &[u32],
        found: &mut Found<L>,
        packed: &mut Vec<u8>,
        most: usize,
    ) -> Result<Look, NoMemory>
    where
        L: Eq,
        requires words { slice_get self.old.states self.old.looked ≡ Some words.now }
        requires open { self.old.looked < length self.old.paths }
        requires few { length self.old.paths ≤ most }
        requires most { most ≤ 100000000 }
        requires under { IsUnder L.eq (S.can space.old) (S.node space.old) self.old }
        requires none { NonePassed (S.can space.old) (S.node space.old) (S.wanted space.old)
            self.old }
        ensures same { space.new ≡ space.old }
        ensures few { OnOk result (length self.new.paths ≤ most) }
        ensures under { OnOk result (IsUnder L.eq (S.can space.old) (S.node space.old) self.new) }
        ensures none { OnOk result (NonePassed (S.can space.old) (S.node space.old)
            (S.wanted space.old) self.new) }
        ensures on { IfOk result (λ l. l ≡ Look.Whole → self.new.looked ≡ self.old.looked + 1) }
        ensures cut { IfOk result (λ l. l ≡ Look.Cut → length self.new.paths ≡ most) }
        ensures left_out { IfOk result (λ l. l ≡ Look.Cut
            → LeavesOut (S.can space.old) (S.node space.old) self.new.paths self.new.looked) }
        ensures wanted { IfOk result (λ l. l ≡ Look.Wanted → (g : List L)
            → IsPath (S.can space.old) g → IsNext (S.node space.old) self.new g
            → S.wanted space.old g) }
        ensures stays { IfOk result (λ l. l ≡ Look.Wanted → self.new ≡ self.old) }
    {
        let place = self.looked();
        found.clear();
        space.steps(words, found)?;
        if space.is_wanted(words, found)? {
            return Ok(Look::Wanted);
        }
        let Ok(count) = u32::try_from(found.len()) else {
            return Err(NoMemory);
        };
        note(&mut self.firsts, place as u32, found)?;
        if !self
            .states
            .put_all(alloc, place as u32, found, most, packed)?
        {
            return Ok(Look::Cut);
        }
        self.counts.push(count)?;
        Ok(Look::Whole)
    }
}
