//! The steps that a claim makes on the words.
ghost use Rattle.std.specs.Prelude.{◌≡◌, ◌<◌, ◌^◌, true, false, []};
ghost use Rattle.vector_matrix.specs.Rule.{left_view, right_view, met_view};
ghost use Rattle.vector_matrix.specs.Steps.{Claims, Frees, Learns};
ghost use Rattle.vector_matrix.specs.Vectors.{is_in};

use crate::view::{Vector, View};
use atomic_table::{Join, Play, Seat, Shared, Split, TableRule};
use std::marker::{Brand, PhantomData};

/// The rule, which is told how many processors there are.
pub struct HeldByOne;

impl TableRule<u64, View, u32> for HeldByOne {
    ghost use Rattle.vector_matrix.specs.Rule.{Holds, first_view};

    ghost holds = { Holds };

    ghost first = { λ cpus. first_view };
}

pub type Seated = Seat<u64, View>;

pub type Words = Shared<u64, View, u32, HeldByOne>;

/// The vector that a step is about. Each call picks it.
pub trait Named {
    ghost use Rattle.vector_matrix.specs.declared.view.Vector.{Vector};

    ghost vector: { Vector };
}

impl Named for Brand {
    ghost vector = { record { cpu = record { 0 = 0 }; number = 0 } };
}

struct ClaimsOne<A> {
    of: PhantomData<A>,
}

impl<A: Named> Play<u64, View> for ClaimsOne<A> {
    ghost use Rattle.vector_matrix.specs.Steps.{Claims, has};

    ghost then = { λ step before found after.
        Claims A.vector before (has found A.vector.number) after };
}

struct FreesOne<A> {
    of: PhantomData<A>,
}

impl<A: Named> Play<u64, View> for FreesOne<A> {
    ghost use Rattle.vector_matrix.specs.Steps.{Frees};

    ghost then = { λ step before found after. Frees A.vector before after };
}

struct LooksOn;

impl Play<u64, View> for LooksOn {
    ghost use Rattle.vector_matrix.specs.Steps.{Learns};

    ghost then = { λ step before found after. Learns before after };
}

struct ForksOne;

impl Split<View> for ForksOne {
    ghost use Rattle.vector_matrix.specs.Rule.{left_view, right_view};

    ghost left = { left_view };

    ghost right = { λ v. right_view };
}

struct MeetsOne;

impl Join<View> for MeetsOne {
    ghost use Rattle.vector_matrix.specs.Rule.{met_view, spent_view};

    ghost both = { met_view };

    ghost spent = { spent_view };
}

/// The vector's bit in its processor's word.
fn bit_in_word(vector: Vector) -> u64
    requires { vector.number < 64 }
    ensures { result ≡ 2 ^ vector.number }
{
    1u64 << vector.number
}

fn set_as<A: Named>(words: &Words, seat: &mut Seated, vector: Vector) -> bool
    requires named { vector ≡ A.vector }
    requires table { seat.old.table_id ≡ words.now.table_id }
    requires cpu { vector.cpu.0 < words.now.key }
    requires words { words.now.key ≡ words.now.table_id.words }
    requires number { vector.number < 64 }
    requires there { seat.old.me.0.spent ≡ false }
    ensures table { seat.new.table_id ≡ seat.old.table_id }
    ensures claims { Claims vector seat.old.me result seat.new.me }
{
    let bit = bit_in_word(vector);
    let found = words.fetch_or::<ClaimsOne<A>>(seat, vector.cpu.0 as usize, bit);
    found & bit != 0
}

/// Sets the vector's bit, and answers whether it was set before.
pub fn set(words: &Words, seat: &mut Seated, vector: Vector) -> bool
    requires table { seat.old.table_id ≡ words.now.table_id }
    requires cpu { vector.cpu.0 < words.now.key }
    requires words { words.now.key ≡ words.now.table_id.words }
    requires number { vector.number < 64 }
    requires there { seat.old.me.0.spent ≡ false }
    ensures table { seat.new.table_id ≡ seat.old.table_id }
    ensures claims { Claims vector seat.old.me result seat.new.me }
{
    set_as::<Brand>(words, seat, vector)
}

fn clear_as<A: Named>(words: &Words, seat: &mut Seated, vector: Vector)
    requires named { vector ≡ A.vector }
    requires table { seat.old.table_id ≡ words.now.table_id }
    requires cpu { vector.cpu.0 < words.now.key }
    requires words { words.now.key ≡ words.now.table_id.words }
    requires number { vector.number < 64 }
    requires whole { (seat.old.me.0.spent ≡ false) × (seat.old.me.0.first ≡ true)
        × (seat.old.me.0.out ≡ 0) }
    requires held { is_in vector seat.old.me.0.holds ≡ true }
    ensures table { seat.new.table_id ≡ seat.old.table_id }
    ensures frees { Frees vector seat.old.me seat.new.me }
{
    let bit = bit_in_word(vector);
    words.fetch_and::<FreesOne<A>>(seat, vector.cpu.0 as usize, !bit);
}

/// Clears the bit of a vector that the only claim holds.
pub fn clear(words: &Words, seat: &mut Seated, vector: Vector)
    requires table { seat.old.table_id ≡ words.now.table_id }
    requires cpu { vector.cpu.0 < words.now.key }
    requires words { words.now.key ≡ words.now.table_id.words }
    requires number { vector.number < 64 }
    requires whole { (seat.old.me.0.spent ≡ false) × (seat.old.me.0.first ≡ true)
        × (seat.old.me.0.out ≡ 0) }
    requires held { is_in vector seat.old.me.0.holds ≡ true }
    ensures table { seat.new.table_id ≡ seat.old.table_id }
    ensures frees { Frees vector seat.old.me seat.new.me }
{
    clear_as::<Brand>(words, seat, vector);
}

/// Splits a fork off the first claim.
pub fn split(words: &Words, seat: &mut Seated) -> Seated
    requires table { seat.old.table_id ≡ words.now.table_id }
    requires some { 0 < words.now.table_id.words }
    requires first { (seat.old.me.0.spent ≡ false) × (seat.old.me.0.first ≡ true) }
    ensures table { (seat.new.table_id ≡ seat.old.table_id)
        × (result.table_id ≡ seat.old.table_id) }
    ensures left { seat.new.me ≡ (left_view seat.old.me.0, seat.old.me.1) }
    ensures right { result.me ≡ (right_view, []) }
{
    words.split_seat::<ForksOne>(seat)
}

/// Takes in what a fork holds and met, and learns what comes of it.
pub fn join(words: &Words, seat: &mut Seated, other: Seated)
    requires table { (seat.old.table_id ≡ words.now.table_id)
        × (other.table_id ≡ words.now.table_id) }
    requires some { 0 < words.now.table_id.words }
    requires first { (seat.old.me.0.spent ≡ false) × (seat.old.me.0.first ≡ true) }
    requires fork { (other.me.0.spent ≡ false) × (other.me.0.first ≡ false) × (other.me.1 ≡ []) }
    ensures table { seat.new.table_id ≡ seat.old.table_id }
    ensures met { Learns (met_view seat.old.me.0 other.me.0, seat.old.me.1) seat.new.me }
{
    words.join_seat::<MeetsOne>(seat, other);
    words.load::<LooksOn>(seat, 0);
}
