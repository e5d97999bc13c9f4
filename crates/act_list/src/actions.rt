//! The linked actions.
ghost use Rattle.std.specs.Prelude.{◌≡◌, ◌+◌, ◌==◌, ◌<◌, ◌≤◌, ◌++◌, [], ◌∷◌, true, false, not};
ghost use Rattle.std.specs.Prelude.{◌&&◌, nat_lt, bit_and, count_ones, is_some, length};
ghost use Rattle.std.specs.Prelude.{slice_get, option_map, IfSome, IsOk, OnOk, OnErr};
ghost use Rattle.std.specs.Map.{lookup, remove_entry};
ghost use Rattle.irq_model.specs.Kinds.{same_dev};
ghost use Rattle.irq_model.specs.Next.{flags_differ, is_null};
ghost use Rattle.act_list.specs.Actions.{has, is_bare, is_only_action, is_mismatch, answer_where};
ghost use Rattle.act_list.specs.Actions.{answer_by, bits_of, lowest_free, bit_by, bits_due};
ghost use Rattle.act_list.specs.Actions.{bit_in, bit_of, is_oneshot_in, is_full, IsLowestFree};
ghost use Rattle.act_list.specs.Actions.{first_of};

use indexmap::IndexMap;
use irq_base::{DevNo, Errno, Flags, Kind, LinkAnswer, NoMemory};
use std::alloc::Global;
use std::marker::Model;

/// What a line keeps of a linked device.
#[derive(Clone, Copy)]
pub struct Action {
    /// The flags of its request.
    pub flags: Flags,
    /// Its thread bit (`thread_mask`): a word in which this one bit is set, or 0 if the action
    /// isn't one-shot.
    pub bit: u64,
}

/// The linked devices with their actions, in the order of their requests. Contracts see that list,
/// and how many more actions fit without memory.
#[derive(Drop)]
pub(crate) struct Actions {
    map: IndexMap<DevNo, Action>,
}

impl Model for Actions {
    ghost use Rattle.act_list.specs.Actions.{ActionsSeen, AreKept};
    ghost use Rattle.indexmap.specs.IndexMap.{spare};

    ghost Value = { ActionsSeen };

    ghost view = { λ a. record { actions = a.map.entries; spare = spare a.map } };

    ghost invariant = { λ a. AreKept a.map.entries };
}

impl Actions {
    /// No action yet, and no memory.
    pub(crate) fn new(alloc: Global) -> Actions
        ensures { result.actions ≡ [] }
    {
        Actions {
            map: IndexMap::new(alloc),
        }
    }

    /// How many actions there are.
    pub(crate) fn len(&self) -> usize
        ensures { result ≡ length self.now.actions }
    {
        self.map.len()
    }

    /// Whether nothing is linked.
    pub(crate) fn is_empty(&self) -> bool
        ensures { result ≡ is_bare self.now.actions }
    {
        self.map.is_empty()
    }

    /// The device of the action at `place`, counted from 0; none from the length on.
    pub(crate) fn device(&self, place: usize) -> Option<DevNo>
        ensures { result ≡ option_map first_of (slice_get self.now.actions place) }
    {
        match self.map.get_index(place) {
            Some((dev, _)) => Some(*dev),
            None => None,
        }
    }

    /// The device at the place with its action; none from the length on.
    pub(crate) fn action(&self, place: usize) -> Option<(DevNo, Action)>
        ensures { result ≡ slice_get self.now.actions place }
    {
        match self.map.get_index(place) {
            Some((dev, action)) => Some((*dev, *action)),
            None => None,
        }
    }

    /// Whether the device is linked.
    pub(crate) fn contains(&self, dev: DevNo) -> bool
        ensures { result ≡ has dev self.now.actions }
    {
        self.map.contains_key(&dev)
    }

    /// Whether the device is linked and nothing else is.
    pub(crate) fn is_only(&self, dev: DevNo) -> bool
        ensures { result ≡ is_only_action dev self.now.actions }
    {
        self.map.len() == 1 && self.contains(dev)
    }

    /// The device's thread bit; none if it isn't linked or has none.
    pub(crate) fn bit(&self, dev: DevNo) -> Option<u64>
        ensures bit { result ≡ bit_of (lookup (same_dev dev) self.now.actions) }
        ensures oneshot { is_some result ≡ is_oneshot_in (lookup (same_dev dev) self.now.actions) }
        ensures one { IfSome result (λ b. count_ones b ≡ 1) }
    {
        let action = self.map.get(&dev).copied()?;
        if action.bit == 0 {
            return None;
        }
        Some(action.bit)
    }

    /// Makes room for one more action. The only error is `NoMemory`.
    pub(crate) fn reserve(&mut self) -> Result<(), NoMemory>
        ensures room { OnOk result (1 ≤ self.new.spare) }
        ensures spare { self.old.spare ≤ self.new.spare }
        ensures actions { self.new.actions ≡ self.old.actions }
    {
        self.map.reserve(1)?;
        Ok(())
    }

    /// What a request with these flags is answered, of a device of this kind.
    pub(crate) fn answer(&self, kind: Kind, flags: Flags) -> LinkAnswer
        ensures answer { result ≡ answer_by kind flags self.now.actions }
        ensures many { result
            ≡ answer_where (length self.now.actions == 64) kind flags self.now.actions }
        ensures full { result
            ≡ answer_where (is_full self.now.actions) kind flags self.now.actions }
    {
        if is_contrary(flags) {
            return LinkAnswer::Refused(Errno::Inval);
        }
        if self.is_mismatch(flags) {
            return LinkAnswer::Refused(Errno::Busy);
        }
        if self.has_no_bit(flags) {
            return LinkAnswer::Refused(Errno::Busy);
        }
        if lacks_oneshot(kind, flags) {
            return LinkAnswer::Refused(Errno::Inval);
        }
        LinkAnswer::Linked
    }

    /// Whether the flags don't go with the linked actions. These agree with one another, so the
    /// first is enough.
    fn is_mismatch(&self, flags: Flags) -> bool
        ensures { result ≡ is_mismatch flags self.now.actions }
    {
        match self.map.first() {
            Some((_, action)) => differ(flags, action.flags),
            None => false,
        }
    }

    /// Whether the request needs a thread bit and all 64 are in use. Then the linked actions are
    /// one-shot too, and each has a bit.
    fn has_no_bit(&self, flags: Flags) -> bool
        requires { is_mismatch flags self.now.actions ≡ false }
        ensures many { result ≡ (flags.oneshot && (length self.now.actions == 64)) }
        ensures full { result ≡ (flags.oneshot && is_full self.now.actions) }
        ensures above { result ≡ (flags.oneshot && not (nat_lt (length self.now.actions) 64)) }
    {
        flags.oneshot && self.map.len() >= 64
    }

    /// The thread bits that are in use.
    fn used_bits(&self) -> u64
        ensures { result ≡ bits_of self.now.actions }
    {
        let mut used = 0;
        for i in 0..self.len() {
            used |= self.bit_at(i);
        }
        used
    }

    /// The thread bit of the action at `place`, 0 if it has none.
    fn bit_at(&self, place: usize) -> u64
        ensures { result ≡ bit_in (slice_get self.now.actions place) }
    {
        match self.map.get_index(place) {
            Some((_, action)) => action.bit,
            None => 0,
        }
    }

    /// The lowest thread bit that is free: there is one while fewer than 64 actions are linked.
    fn free_bit(&self) -> u64
        requires { length self.now.actions < 64 }
        ensures bit { result ≡ lowest_free (bits_of self.now.actions) }
        ensures free { IsLowestFree self.now.actions result }
    {
        // The map keeps that no two actions have the same bit; so the place is below 64.
        let _map = &self.map;
        let place = self.used_bits().trailing_ones();
        1 << place
    }

    /// The thread bit of a new action with these flags, or 0 if it isn't one-shot.
    pub(crate) fn new_bit(&self, flags: Flags) -> u64
        requires { flags.oneshot ≡ true → length self.now.actions < 64 }
        ensures bit { result ≡ bit_by flags self.now.actions }
        ensures free { flags.oneshot ≡ true → IsLowestFree self.now.actions result }
        ensures due { count_ones result ≡ bits_due flags }
        ensures apart { bit_and (bits_of self.now.actions) result ≡ 0 }
    {
        if flags.oneshot { self.free_bit() } else { 0 }
    }

    /// Adds an action at the end.
    pub(crate) fn add(&mut self, dev: DevNo, action: Action) -> Result<(), NoMemory>
        requires absent { has dev self.old.actions ≡ false }
        requires goes { is_mismatch action.flags self.old.actions ≡ false }
        requires due { count_ones action.bit ≡ bits_due action.flags }
        requires apart { bit_and (bits_of self.old.actions) action.bit ≡ 0 }
        ensures ok { OnOk result (self.new.actions ≡ self.old.actions ++ (dev, action) ∷ []) }
        ensures refused { OnErr result (self.new.actions ≡ self.old.actions) }
        ensures room { 1 ≤ self.old.spare → IsOk result }
        ensures spare { self.old.spare ≤ self.new.spare + 1 }
    {
        if self.map.insert(dev, action).is_err() {
            return Err(NoMemory);
        }
        Ok(())
    }

    /// Takes all actions out. Their memory is kept.
    pub(crate) fn clear(&mut self)
        ensures actions { self.new.actions ≡ [] }
        ensures spare { self.old.spare ≤ self.new.spare }
    {
        self.map.clear();
    }

    /// Takes the device's action out; the rest keeps its order.
    pub(crate) fn remove(&mut self, dev: DevNo)
        ensures actions { self.new.actions ≡ remove_entry (same_dev dev) self.old.actions }
        ensures spare { self.old.spare ≤ self.new.spare }
    {
        let _ = self.map.shift_remove(&dev);
    }
}

/// Whether the flags of a request don't go with the flags of a linked action.
fn differ(new: Flags, old: Flags) -> bool
    ensures { result ≡ flags_differ new old }
{
    !new.shared || !old.shared || new.oneshot != old.oneshot
}

/// A shared line is started by its first request.
fn is_contrary(flags: Flags) -> bool
    ensures { result ≡ (flags.shared && flags.noauto) }
{
    flags.shared && flags.noauto
}

/// Only a one-shot line may do without a primary handler.
fn lacks_oneshot(kind: Kind, flags: Flags) -> bool
    ensures { result ≡ (is_null kind && not flags.oneshot) }
{
    matches!(kind, Kind::Null) && !flags.oneshot
}
