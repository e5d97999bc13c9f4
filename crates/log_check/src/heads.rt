//! The head of a row: its line, and who made its entry. Nothing more of a row is read, unless the
//! row differs from the one that is due.
ghost use Rattle.std.specs.Prelude.{◌≡◌, IfSome, MatchOption, Some};
ghost use Rattle.std.specs.Option.{option_map};
ghost use Rattle.log_check.specs.Heads.{IsHead, IsNoEntry, ReadsNumber, actor_by};

use irq_base::{Actor, CpuNo, DevNo, DriverNo, LineNo};

/// The line of the text's first row, and who made its entry. If there is no head, the row is no
/// entry's; a row that is no entry's may have one all the same.
pub(crate) fn read_head(text: &[u8]) -> Option<(LineNo, Actor)>
    ensures { MatchOption result (IsNoEntry text.now) (λ head. IsHead text.now head.0 head.1) }
{
    let (line, rest) = number_before_space(text)?;
    let (letter, rest) = rest.split_first()?;
    let (number, _) = number_before_space(rest)?;
    let actor = actor_by(*letter, number)?;
    Some((LineNo(line), actor))
}

/// The actor that the letter and the number stand for.
fn actor_by(letter: u8, number: u32) -> Option<Actor>
    ensures { result ≡ actor_by letter number }
{
    match letter {
        b'c' => Some(Actor::Cpu(CpuNo(number))),
        b'd' => Some(Actor::Driver(DriverNo(number))),
        b't' => Some(Actor::Thread(DevNo(number))),
        _ => None,
    }
}

/// The number that stands before the first space, and what follows the space; none if other bytes
/// than digits stand there, or more than 32 bits hold.
fn number_before_space(bytes: &[u8]) -> Option<(u32, &[u8])>
    ensures { ReadsNumber bytes.now (option_map (λ read. (read.0, read.1.now)) result) }
{
    // most numbers of a head have one digit
    match one_digit(bytes) {
        Some(read) => Some(read),
        None => number_of_digits(bytes),
    }
}

/// The same, if a space follows the first byte and that is a digit.
fn one_digit(bytes: &[u8]) -> Option<(u32, &[u8])>
    ensures { IfSome result (λ read. ReadsNumber bytes.now (Some (read.0, read.1.now))) }
{
    let (digit, rest) = bytes.split_first()?;
    let (space, after) = rest.split_first()?;
    if *space != b' ' || !digit.is_ascii_digit() {
        return None;
    }
    Some((u32::from(*digit - b'0'), after))
}

/// The same, of a number of any digits.
fn number_of_digits(bytes: &[u8]) -> Option<(u32, &[u8])>
    ensures { ReadsNumber bytes.now (option_map (λ read. (read.0, read.1.now)) result) }
{
    let mut value: u32 = 0;
    let mut rest = bytes;
    while let Some((byte, after)) = rest.split_first() {
        if *byte == b' ' {
            return Some((value, after));
        }
        let digit = byte.wrapping_sub(b'0');
        if digit > 9 {
            return None;
        }
        let Some(tens) = value.checked_mul(10) else {
            return None;
        };
        let Some(more) = tens.checked_add(u32::from(digit)) else {
            return None;
        };
        value = more;
        rest = after;
    }
    None
}
