//! The steps that a pass makes on the two words and the slot.
ghost use Rattle.std.specs.Prelude.{◌≡◌, ◌≤◌, length, IsTrue, IsFalse, MatchBool, Some, None};
ghost use Rattle.std.specs.Prelude.{true, false, [], ◌∷◌};
ghost use Rattle.line_lock.specs.Knows.{is_among};
ghost use Rattle.line_lock.specs.Rule.{left_view, right_view, met_view};
ghost use Rattle.line_lock.specs.Passes.{IsMore};
ghost use Rattle.line_lock.specs.Steps.{holding, counted, idle, Suits, Took, Looks, Raises};
ghost use Rattle.line_lock.specs.Steps.{Gives, Glances, Learns, Added, Ready};

use crate::kept::Kept;
use crate::view::View;
use atomic_table::{Join, Play, Seat, Shared, Split, TableRule};
use irq_base::{Actor, LineDef};
use std::hint::spin_loop;
use std::marker::{Brand, PhantomData};
use std::sync::Wait;
use std::thread::yield_now;

/// 1 while a pass has the turn, else 0.
pub const TURN: usize = 0;
/// The length of the history.
pub const COUNT: usize = 1;
/// Where the value lies while nobody has the turn.
pub const HOME: usize = 0;

/// The rule.
pub struct Counted<T> {
    of: PhantomData<T>,
}

impl<T: Kept> TableRule<Option<T>, View, LineDef> for Counted<T> {
    ghost use Rattle.line_lock.specs.Rule.{Holds, first_view};

    ghost holds = { Holds T.definition T.entries };

    ghost first = { first_view };
}

pub type Seated<T> = Seat<Option<T>, View>;

pub type Words<T> = Shared<Option<T>, View, LineDef, Counted<T>>;

struct AsksTurn<T> {
    of: PhantomData<T>,
}

impl<T: Kept> Play<Option<T>, View> for AsksTurn<T> {
    ghost use Rattle.line_lock.specs.Steps.{Takes};

    ghost then = { λ step before found after. Takes T.definition T.entries before found after };
}

struct CountsMore<T> {
    of: PhantomData<T>,
}

impl<T: Kept> Play<Option<T>, View> for CountsMore<T> {
    ghost use Rattle.line_lock.specs.Steps.{Raises};

    ghost then = { λ step before found after. Raises T.definition T.entries before after };
}

struct CountsSame<T> {
    of: PhantomData<T>,
}

impl<T: Kept> Play<Option<T>, View> for CountsSame<T> {
    ghost use Rattle.line_lock.specs.Steps.{Looks};

    ghost then = { λ step before found after. Looks T.definition T.entries before after };
}

struct SeesCount<T> {
    of: PhantomData<T>,
}

impl<T: Kept> Play<Option<T>, View> for SeesCount<T> {
    ghost use Rattle.line_lock.specs.Steps.{Glances};

    ghost then = { λ step before found after. Glances before found after };
}

struct GivesTurn<T> {
    of: PhantomData<T>,
}

impl<T: Kept> Play<Option<T>, View> for GivesTurn<T> {
    ghost use Rattle.line_lock.specs.Steps.{Gives};

    ghost then = { λ step before found after. Gives T.definition T.entries before after };
}

struct LearnsLast<T> {
    of: PhantomData<T>,
}

impl<T: Kept> Play<Option<T>, View> for LearnsLast<T> {
    ghost use Rattle.line_lock.specs.Steps.{Learns};

    ghost then = { λ step before found after. Learns T.definition T.entries before after };
}

/// The actor for which a pass is split off. Each call picks it.
pub trait Named {
    ghost use Rattle.irq_base.specs.declared.entries.Actor.{Actor};

    ghost actor: { Actor };
}

impl Named for Brand {
    ghost use Rattle.irq_base.specs.declared.entries.Actor.TheVariants as actors;

    ghost actor = { actors.Cpu (record { 0 = 0 }) };
}

struct Forks<A> {
    of: PhantomData<A>,
}

impl<A: Named> Split<View> for Forks<A> {
    ghost use Rattle.line_lock.specs.Rule.{left_view, right_view};

    ghost left = { λ v. left_view v A.actor };

    ghost right = { λ v. right_view v A.actor };
}

struct MeetsOne;

impl Join<View> for MeetsOne {
    ghost use Rattle.line_lock.specs.Rule.{met_view, spent_view};

    ghost both = { met_view };

    ghost spent = { spent_view };
}

/// Asks for the turn once. If nobody had it, the pass has it now, with the value.
pub fn ask_turn<T: Kept>(lock: &Words<T>, seat: &mut Seated<T>) -> bool
    requires table { (seat.old.table_id ≡ lock.now.table_id) × (lock.now.table_id.words ≡ 2) }
    requires idle { (seat.old.me.1 ≡ []) × (seat.old.me.0.spent ≡ false) }
    requires actor { (who : _) × (seat.old.me.0.knows.actor ≡ Some who) }
    ensures table { seat.new.table_id ≡ seat.old.table_id }
    ensures took { MatchBool result (Took T.definition T.entries seat.old.me seat.new.me)
        (seat.new.me ≡ seat.old.me) }
{
    lock.compare_exchange::<AsksTurn<T>>(seat, TURN, 0, 1) == 0
}

/// Takes the value out of the slot that the pass carries.
pub fn take_out<T: Kept>(lock: &Words<T>, seat: &mut Seated<T>) -> T
    requires table { seat.old.table_id ≡ lock.now.table_id }
    requires carried { (x : T) × (seat.old.me.1 ≡ (0, Some x) ∷ []) }
    ensures table { seat.new.table_id ≡ seat.old.table_id }
    ensures value { seat.old.me.1 ≡ (0, Some result) ∷ [] }
    ensures seat { seat.new.me ≡ (seat.old.me.0, (0, None) ∷ []) }
{
    let Some(value) = lock.exchange(seat, HOME, None) else {
        unreachable!()
    };
    value
}

/// Puts the value into the slot that the pass carries.
pub fn put_in<T: Kept>(lock: &Words<T>, seat: &mut Seated<T>, value: T)
    requires table { seat.old.table_id ≡ lock.now.table_id }
    requires carried { seat.old.me.1 ≡ (0, None) ∷ [] }
    ensures table { seat.new.table_id ≡ seat.old.table_id }
    ensures seat { seat.new.me ≡ (seat.old.me.0, (0, Some value) ∷ []) }
{
    let old = lock.exchange(seat, HOME, Some(value));
    let None = old else { unreachable!() };
}

/// Counts the one entry that the value in the slot has more than the value that was held.
pub fn count_more<T: Kept>(lock: &Words<T>, seat: &mut Seated<T>)
    requires table { (seat.old.table_id ≡ lock.now.table_id) × (lock.now.table_id.words ≡ 2) }
    requires turn { (seat.old.me.0.turn ≡ true) × (seat.old.me.0.spent ≡ false) }
    requires added { (who : _) × (seat.old.me.0.knows.actor ≡ Some who)
        × Added T.definition T.entries who seat.old.me }
    ensures table { seat.new.table_id ≡ seat.old.table_id }
    ensures seen { Raises T.definition T.entries seat.old.me seat.new.me }
{
    lock.fetch_add::<CountsMore<T>>(seat, COUNT, 1);
}

/// Looks at the count if nothing was added.
pub fn count_same<T: Kept>(lock: &Words<T>, seat: &mut Seated<T>)
    requires table { (seat.old.table_id ≡ lock.now.table_id) × (lock.now.table_id.words ≡ 2) }
    requires turn { (seat.old.me.0.turn ≡ true) × (seat.old.me.0.spent ≡ false) }
    requires actor { (who : _) × (seat.old.me.0.knows.actor ≡ Some who) }
    ensures table { seat.new.table_id ≡ seat.old.table_id }
    ensures seen { Looks T.definition T.entries seat.old.me seat.new.me }
{
    lock.load::<CountsSame<T>>(seat, COUNT);
}

/// Looks at the count without the turn.
pub fn glance<T: Kept>(lock: &Words<T>, seat: &mut Seated<T>) -> u64
    requires table { (seat.old.table_id ≡ lock.now.table_id) × (lock.now.table_id.words ≡ 2) }
    requires idle { (seat.old.me.0.turn ≡ false) × (seat.old.me.0.spent ≡ false) }
    requires actor { (who : _) × (seat.old.me.0.knows.actor ≡ Some who) }
    ensures table { seat.new.table_id ≡ seat.old.table_id }
    ensures seen { Glances seat.old.me result seat.new.me }
{
    lock.load::<SeesCount<T>>(seat, COUNT)
}

/// Gives the turn back, and the slot with it.
pub fn give_back<T: Kept>(lock: &Words<T>, seat: &mut Seated<T>)
    requires table { (seat.old.table_id ≡ lock.now.table_id) × (lock.now.table_id.words ≡ 2) }
    requires turn { (seat.old.me.0.turn ≡ true) × (seat.old.me.0.spent ≡ false) }
    requires actor { (who : _) × (seat.old.me.0.knows.actor ≡ Some who) }
    requires ready { Ready T.definition T.entries seat.old.me }
    ensures table { seat.new.table_id ≡ seat.old.table_id }
    ensures gave { Gives T.definition T.entries seat.old.me seat.new.me }
{
    lock.store::<GivesTurn<T>>(seat, TURN, 0);
}

fn split_as<T: Kept, A: Named>(lock: &Words<T>, seat: &mut Seated<T>, actor: Actor) -> Seated<T>
    requires actor { actor ≡ A.actor }
    requires table { (seat.old.table_id ≡ lock.now.table_id) × (lock.now.table_id.words ≡ 2) }
    requires idle { (seat.old.me.0.turn ≡ false) × (seat.old.me.0.spent ≡ false) }
    requires first { seat.old.me.0.knows.actor ≡ None }
    requires fresh { is_among actor seat.old.me.0.knows.given ≡ false }
    ensures table { (seat.new.table_id ≡ seat.old.table_id)
        × (result.table_id ≡ seat.old.table_id) }
    ensures left { seat.new.me ≡ (left_view seat.old.me.0 actor, seat.old.me.1) }
    ensures right { result.me ≡ (right_view seat.old.me.0 actor, []) }
{
    lock.split_seat::<Forks<A>>(seat)
}

/// Splits off a pass for the actor.
pub fn split<T: Kept>(lock: &Words<T>, seat: &mut Seated<T>, actor: Actor) -> Seated<T>
    requires table { (seat.old.table_id ≡ lock.now.table_id) × (lock.now.table_id.words ≡ 2) }
    requires idle { (seat.old.me.0.turn ≡ false) × (seat.old.me.0.spent ≡ false) }
    requires first { seat.old.me.0.knows.actor ≡ None }
    requires fresh { is_among actor seat.old.me.0.knows.given ≡ false }
    ensures table { (seat.new.table_id ≡ seat.old.table_id)
        × (result.table_id ≡ seat.old.table_id) }
    ensures left { seat.new.me ≡ (left_view seat.old.me.0 actor, seat.old.me.1) }
    ensures right { result.me ≡ (right_view seat.old.me.0 actor, []) }
{
    split_as::<T, Brand>(lock, seat, actor)
}

/// Takes in what the other pass knows, and learns what comes of it.
pub fn join<T: Kept>(lock: &Words<T>, seat: &mut Seated<T>, other: Seated<T>)
    requires table { (seat.old.table_id ≡ lock.now.table_id) × (other.table_id ≡ lock.now.table_id)
        × (lock.now.table_id.words ≡ 2) }
    requires idle { (seat.old.me.0.turn ≡ false) × (seat.old.me.0.spent ≡ false)
        × (other.me.0.turn ≡ false) × (other.me.0.spent ≡ false) × (other.me.1 ≡ []) }
    requires first { seat.old.me.0.knows.actor ≡ None }
    requires actor { (who : _) × (other.me.0.knows.actor ≡ Some who) }
    ensures table { seat.new.table_id ≡ seat.old.table_id }
    ensures met { Learns T.definition T.entries (met_view seat.old.me.0 other.me.0, seat.old.me.1)
        seat.new.me }
{
    lock.join_seat::<MeetsOne>(seat, other);
    lock.load::<LearnsLast<T>>(seat, TURN);
}

/// How many times the turn is asked for before other threads are let run between two tries.
const SPINS: u32 = 64;

/// Waits for the turn, and takes the value out.
pub fn wait_turn<T: Kept, R: Wait>(rt: &R, lock: &Words<T>, seat: &mut Seated<T>) -> T
    requires table { (seat.old.table_id ≡ lock.now.table_id) × (lock.now.table_id.words ≡ 2) }
    requires idle { (seat.old.me.1 ≡ []) × (seat.old.me.0.spent ≡ false) }
    requires actor { (who : _) × (seat.old.me.0.knows.actor ≡ Some who) }
    ensures table { seat.new.table_id ≡ seat.old.table_id }
    ensures suits { Suits T.definition T.entries seat.old.me.0 result }
    ensures seat { seat.new.me ≡ (holding seat.old.me.0 (T.entries result), (0, None) ∷ []) }
{
    let mut tries: u32 = 0;
    for _ in rt.forever() {
        if ask_turn(lock, seat) {
            return take_out(lock, seat);
        }
        if tries < SPINS {
            tries += 1;
            spin_loop();
        } else {
            yield_now();
        }
    }
    unreachable!()
}

/// Puts the value back, and gives the turn back. `more`: the value has one entry more than the
/// value that was held; else it has none more.
pub fn put_back<T: Kept>(lock: &Words<T>, seat: &mut Seated<T>, value: T, more: bool)
    requires table { (seat.old.table_id ≡ lock.now.table_id) × (lock.now.table_id.words ≡ 2) }
    requires carried { seat.old.me.1 ≡ (0, None) ∷ [] }
    requires turn { (seat.old.me.0.turn ≡ true) × (seat.old.me.0.spent ≡ false) }
    requires actor { (who : _) × (seat.old.me.0.knows.actor ≡ Some who) }
    requires def { T.definition value ≡ seat.old.me.0.def }
    requires few { length (T.entries value) ≤ 100000000 }
    requires same { IsFalse more → T.entries value ≡ seat.old.me.0.held }
    requires added { IsTrue more
        → IsMore seat.old.me.0.knows.actor seat.old.me.0.held
        (T.entries value) }
    ensures table { seat.new.table_id ≡ seat.old.table_id }
    ensures seat { seat.new.me ≡ (idle (counted seat.old.me.0 (T.entries value)), []) }
{
    put_in(lock, seat, value);
    if more {
        count_more(lock, seat);
    } else {
        count_same(lock, seat);
    }
    give_back(lock, seat);
}
