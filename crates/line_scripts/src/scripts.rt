//! The scripts of all drivers on the line.
ghost use Rattle.std.specs.Prelude.{◌≡◌, ℕ, ◌+◌, ◌<◌, ◌^◌, ◌++◌, [], ◌∷◌, false, ◌&&◌, IsSome};
ghost use Rattle.std.specs.Prelude.{OnOk, IfOk, if◌then◌else◌, position};
ghost use Rattle.std.specs.Map.{keys_of};
ghost use Rattle.irq_base.specs.declared.numbers.DriverNo.{DriverNo};
ghost use Rattle.irq_model.specs.Bounds.{is_ask_call};
ghost use Rattle.irq_model.specs.Due.{calls_by};
ghost use Rattle.irq_model.specs.Kinds.{same_driver};
ghost use Rattle.irq_model.specs.Places.{count_of};
ghost use Rattle.irq_model.specs.Laid.{with_count};
ghost use Rattle.line_scripts.specs.Rows.{row_of, calls_of, place_of, within_of, call_of};
ghost use Rattle.line_scripts.specs.Rows.{asks_left, is_some_ask, gone_to};

use crate::row::Row;
use indexmap::IndexMap;
use irq_base::{Call, CallList, DriverNo, NoMemory};
use std::alloc::Global;
use std::marker::Model;

/// How far each driver is with its calls on the line. Contracts see a row for each driver that has
/// calls there.
#[derive(Drop)]
pub struct Scripts {
    rows: IndexMap<DriverNo, Row>,
}

impl Model for Scripts {
    ghost use Rattle.std.specs.Prelude.{List};
    ghost use Rattle.irq_base.specs.declared.numbers.DriverNo.{DriverNo};
    ghost use Rattle.line_scripts.specs.Rows.{RowSeen};

    ghost Value = { List (DriverNo × RowSeen) };

    ghost view = { λ s. s.rows.entries };
}

impl Scripts {
    /// The scripts of these calls; no call has begun. The only error is `NoMemory`.
    pub fn new(alloc: Global, calls: &CallList) -> Result<Scripts, NoMemory>
        ensures calls { IfOk result (λ s. (r : DriverNo) → calls_of s r ≡ calls_by r calls.now) }
        ensures place { IfOk result (λ s. (r : DriverNo) → place_of s r ≡ 0) }
        ensures within { IfOk result (λ s. (r : DriverNo) → within_of s r ≡ 0) }
        ensures asks { IfOk result (λ s. asks_left s ≡ count_of (λ c. is_ask_call c.1) calls.now) }
    {
        let mut scripts = Scripts {
            rows: IndexMap::new(alloc),
        };
        for i in 0..calls.len() {
            if let Some((who, call)) = calls.get(i) {
                scripts.add(alloc, who, call)?;
            }
        }
        Ok(scripts)
    }

    /// Adds a call at the end of the driver's script; none of the script's calls has begun.
    fn add(&mut self, alloc: Global, who: DriverNo, call: Call) -> Result<(), NoMemory>
        requires { place_of self.old who ≡ 0 }
        ensures own { OnOk result
            (row_of self.new who
            ≡ record (row_of self.old who) { calls = calls_of self.old who ++ call ∷ [] }) }
        ensures others { OnOk result
            ((r : DriverNo) → same_driver r who ≡ false → row_of self.new r ≡ row_of self.old r) }
        ensures asks { OnOk result
            (asks_left self.new ≡ asks_left self.old + (if is_ask_call call then 1 else 0)) }
    {
        if let Some(place) = self.row_place(who) {
            return self.rows[place].push(call);
        }
        let mut row = Row::new(alloc);
        row.push(call)?;
        self.rows.insert(who, row)?;
        Ok(())
    }

    /// Where the driver's row stands; none if it has no calls on the line. As in `due`, the first
    /// row is looked at before any is searched.
    fn row_place(&self, who: DriverNo) -> Option<usize>
        ensures { result ≡ position (same_driver who) (keys_of self.now) }
    {
        if let Some((first, _)) = self.rows.first() {
            if *first == who {
                return Some(0);
            }
        }
        self.searched_place(who)
    }

    /// The same, by a search.
    #[inline(never)]
    fn searched_place(&self, who: DriverNo) -> Option<usize>
        ensures { result ≡ position (same_driver who) (keys_of self.now) }
    {
        self.rows.get_index_of(&who)
    }

    /// The driver's first call that isn't complete, and how many entries it has made; none if all
    /// are complete, or the driver has none on the line. Mostly one driver has calls on a line, so
    /// the first row is looked at before any is searched.
    pub fn due(&self, who: DriverNo) -> Option<(Call, u32)>
        ensures { result ≡ with_count (call_of self.now who) (within_of self.now who) }
    {
        if let Some((first, row)) = self.rows.first() {
            if *first == who {
                return row.due();
            }
        }
        self.searched_due(who)
    }

    /// The same, wherever the driver's row is. It stands apart, so that a first row costs no places
    /// for a search.
    #[inline(never)]
    fn searched_due(&self, who: DriverNo) -> Option<(Call, u32)>
        ensures { result ≡ with_count (call_of self.now who) (within_of self.now who) }
    {
        self.rows.get(&who)?.due()
    }

    /// How many of the driver's calls on the line are complete; none if it has none.
    pub fn place(&self, who: DriverNo) -> usize
        ensures { result ≡ place_of self.now who }
    {
        match self.rows.get(&who) {
            Some(row) => row.place(),
            None => 0,
        }
    }

    /// The driver goes to the place in its script at which this many calls are complete, and the
    /// next one has made `within` entries. Nothing changes if it has no calls on the line.
    pub fn go_to(&mut self, who: DriverNo, place: usize, within: u32)
        ensures { self.new ≡ gone_to who place within self.old }
    {
        if let Some(row) = self.rows.get_mut(&who) {
            row.go_to(place, within);
        }
    }

    /// One more entry of the driver's due call was added. `completes`: it was the last one.
    pub fn advance(&mut self, who: DriverNo, completes: bool)
        requires due { IsSome (call_of self.old who) }
        requires within { within_of self.old who + 1 < 2 ^ 32 }
        ensures calls { (r : DriverNo) → calls_of self.new r ≡ calls_of self.old r }
        ensures place { place_of self.new who
            ≡ (if completes then place_of self.old who + 1 else place_of self.old who) }
        ensures within { within_of self.new who
            ≡ (if completes then 0 else within_of self.old who + 1) }
        ensures other_places { (r : DriverNo) → same_driver r who ≡ false
            → place_of self.new r ≡ place_of self.old r }
        ensures other_withins { (r : DriverNo) → same_driver r who ≡ false
            → within_of self.new r ≡ within_of self.old r }
        ensures asks { asks_left
            self.new + (if completes && is_some_ask (call_of self.old who) then 1 else 0)
            ≡ asks_left self.old }
    {
        // A call is due, so the driver has a row.
        let Some(place) = self.row_place(who) else {
            unreachable!();
        };
        self.rows[place].advance(completes);
    }
}
