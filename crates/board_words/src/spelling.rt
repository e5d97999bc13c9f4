//! How numbers, names, picks and answers are spelled.
ghost use Rattle.std.specs.Prelude.{◌≡◌, ℕ, Some, None, ◌&&◌, nat_le, nat_lt, if◌then◌else◌};
ghost use Rattle.std.specs.Prelude.{length, true, IfSome};
ghost use Rattle.std.specs.List.{list_all, position};
ghost use Rattle.std.specs.Option.{option_copied};
ghost use Rattle.board_def.specs.Names.{is_digit, is_letter, is_name_byte, is_name, name_of};
ghost use Rattle.board_words.specs.Spelling.{value_of, is_decimal, begins_with_zero, is_star};
ghost use Rattle.board_words.specs.Spelling.{number_between, before_star, after_star, times_of};
ghost use Rattle.board_words.specs.Spelling.{picked_of, pick_of, answer_named, answer_of};

use crate::statements::{AnswerWord, PickWord};
use crate::words::is;
use board_def::{LONGEST_NAME, Name};
use irq_base::{Actor, CpuNo, DevNo, DriverNo, Part, ToldAnswer};

/// The most digits of a number.
const LONGEST_NUMBER: usize = 10;

/// The number from `low` to `high` that the word spells.
pub fn number(word: &[u8], low: u32, high: u32) -> Option<u32>
    ensures { result ≡ number_between low high word.now }
{
    // most numbers of a board have one digit
    let value = match one_digit(word) {
        Some(value) => value,
        None => number_up_to(word, high)?,
    };
    if low <= value && value <= high {
        Some(value)
    } else {
        None
    }
}

/// The value of a word that is one digit.
fn one_digit(word: &[u8]) -> Option<u32>
    ensures { IfSome result (λ value. (is_decimal word.now ≡ true) × (value ≡ value_of word.now)) }
{
    match word {
        [digit] if is_digit(*digit) => Some(u32::from(*digit - b'0')),
        _ => None,
    }
}

/// The number that the word spells, if it is at most `high`.
fn number_up_to(word: &[u8], high: u32) -> Option<u32>
    ensures { result ≡ number_between 0 high word.now }
{
    if is_decimal(word) {
        value_up_to(word, high)
    } else {
        None
    }
}

/// Whether the word is a number without a leading zero.
fn is_decimal(word: &[u8]) -> bool
    ensures { result ≡ is_decimal word.now }
{
    are_digits(word) && !word.is_empty() && word.len() <= LONGEST_NUMBER && !has_leading_zero(word)
}

fn are_digits(word: &[u8]) -> bool
    ensures { result ≡ list_all is_digit word.now }
{
    for b in word {
        if !is_digit(*b) {
            return false;
        }
    }
    true
}

fn is_digit(byte: u8) -> bool
    ensures { result ≡ is_digit byte }
{
    (b'0'..=b'9').contains(&byte)
}

fn has_leading_zero(word: &[u8]) -> bool
    ensures { result ≡ (begins_with_zero word.now && nat_lt 1 (length word.now)) }
{
    match word.split_first() {
        Some((first, rest)) => *first == b'0' && !rest.is_empty(),
        None => false,
    }
}

/// The number that the digits spell, if it is at most `high`.
fn value_up_to(digits: &[u8], high: u32) -> Option<u32>
    ensures { result
        ≡ (if nat_le (value_of digits.now) high then Some (value_of digits.now) else None) }
{
    let mut value: u64 = 0;
    for b in digits {
        value = 10 * value + u64::from(b.saturating_sub(b'0'));
        if value > u64::from(high) {
            return None;
        }
    }
    Some(value as u32)
}

/// The name that the word spells.
pub fn name(word: &[u8]) -> Option<Name>
    ensures { result ≡ (if is_name word.now then Some (name_of word.now) else None) }
{
    if is_name(word) {
        Some(Name::new(word))
    } else {
        None
    }
}

fn is_name(word: &[u8]) -> bool
    ensures { result ≡ is_name word.now }
{
    match word.split_first() {
        Some((first, rest)) => {
            is_letter(*first) && are_name_bytes(rest) && rest.len() < LONGEST_NAME
        }
        None => false,
    }
}

fn are_name_bytes(word: &[u8]) -> bool
    ensures { result ≡ list_all is_name_byte word.now }
{
    for b in word {
        if !is_name_byte(*b) {
            return false;
        }
    }
    true
}

fn is_letter(byte: u8) -> bool
    ensures { result ≡ is_letter byte }
{
    (b'a'..=b'z').contains(&byte)
}

fn is_name_byte(byte: u8) -> bool
    ensures { result ≡ is_name_byte byte }
{
    is_letter(byte) || is_digit(byte) || byte == b'_'
}

/// The pick that the word spells.
pub fn pick(word: &[u8]) -> Option<PickWord>
    ensures { result ≡ pick_of word.now }
{
    let (before, after) = split_at_star(word);
    let who = picked(before)?;
    let times = times(after)?;
    Some(PickWord { who, times })
}

/// The bytes before the first `*`, and the bytes after it.
fn split_at_star(word: &[u8]) -> (&[u8], Option<&[u8]>)
    ensures before { result.0.now ≡ before_star word.now }
    ensures after { option_copied result.1 ≡ after_star word.now }
{
    match star(word) {
        Some(i) => (&word[..i], Some(&word[i + 1..])),
        None => (word, None),
    }
}

/// The place of the first `*`.
fn star(word: &[u8]) -> Option<usize>
    ensures { result ≡ position is_star word.now }
{
    word.iter().position(|b| *b == b'*')
}

/// The actor that the pick names.
fn picked(word: &[u8]) -> Option<Actor>
    ensures { result ≡ picked_of word.now }
{
    let (first, rest) = word.split_first()?;
    match *first {
        b't' => Some(Actor::Thread(DevNo(number(rest, 1, 65_535)?))),
        b'c' => Some(Actor::Cpu(CpuNo(number(rest, 0, 31)?))),
        b'd' => Some(Actor::Driver(DriverNo(number(rest, 1, 65_535)?))),
        _ => None,
    }
}

/// How many picks the word counts for, by the digits after the `*`.
fn times(digits: Option<&[u8]>) -> Option<u32>
    ensures { result ≡ times_of (option_copied digits.entry) }
{
    match digits {
        Some(digits) => number(digits, 1, 65_535),
        None => Some(1),
    }
}

/// The answer of that part that the word spells, and in how many runs.
pub fn answer(word: &[u8], part: Part) -> Option<AnswerWord>
    ensures { result ≡ answer_of part word.now }
{
    let (before, after) = split_at_star(word);
    let answer = answer_named(before, part)?;
    let times = times(after)?;
    Some(AnswerWord { answer, times })
}

/// The answer of that part that the word names. A thread wakes nobody.
fn answer_named(word: &[u8], part: Part) -> Option<ToldAnswer>
    ensures { result ≡ answer_named part word.now }
{
    if is(word, b"handled") {
        return Some(ToldAnswer::Handled);
    }
    if is(word, b"nothing") {
        return Some(ToldAnswer::Nothing);
    }
    if is(word, b"claims") {
        return Some(ToldAnswer::Claims);
    }
    if is(word, b"wake") && part == Part::Primary {
        return Some(ToldAnswer::Wake);
    }
    None
}
