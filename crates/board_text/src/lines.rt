//! The first text line of a text.
ghost use Rattle.std.specs.Prelude.{◌≡◌, ℕ, ◌-◌, true, ◌&&◌, nat_le, Some, List, ◌∷◌, ◌++◌, codes};
ghost use Rattle.std.specs.Prelude.{IfSome};
ghost use Rattle.board_def.specs.Names.{is_digit};
ghost use Rattle.board_words.specs.Spelling.{number_between};
ghost use Rattle.board_words.specs.TextLines.{text_lines};

use irq_base::DevNo;

/// If the first text line is `ask`, a space and a number from 1 to 999: the device, and what
/// follows the text line. Letter by letter is quicker than to look for the end and then for words.
#[inline(always)]
pub(crate) fn device_asked(text: &[u8]) -> Option<(DevNo, &[u8])>
    ensures { IfSome result (λ x. (digits : List ℕ)
        × (text.now ≡ codes "ask " ++ digits ++ 10 ∷ x.1.now)
        × (number_between 1 65535 digits ≡ Some x.0.0)) }
{
    match text {
        // most numbers of a board have one digit
        [b'a', b's', b'k', b' ', digit, b'\n', rest @ ..] if is_above_zero(*digit) => {
            Some((DevNo(value_of(*digit)), rest))
        }
        _ => longer_asked(text),
    }
}

/// The same, if the number has two or three digits.
fn longer_asked(text: &[u8]) -> Option<(DevNo, &[u8])>
    ensures { IfSome result (λ x. (digits : List ℕ)
        × (text.now ≡ codes "ask " ++ digits ++ 10 ∷ x.1.now)
        × (number_between 1 65535 digits ≡ Some x.0.0)) }
{
    let [b'a', b's', b'k', b' ', rest @ ..] = text else {
        return None;
    };
    let (number, rest) = longer_number(rest)?;
    Some((DevNo(number), rest))
}

/// If the first text line is a number of two or three digits: the number, and what follows it.
fn longer_number(text: &[u8]) -> Option<(u32, &[u8])>
    ensures { IfSome result (λ x. (digits : List ℕ) × (text.now ≡ digits ++ 10 ∷ x.1.now)
        × (number_between 1 65535 digits ≡ Some x.0)) }
{
    match text {
        [tens, ones, b'\n', rest @ ..] => {
            if is_above_zero(*tens) && is_digit(*ones) {
                Some((10 * value_of(*tens) + value_of(*ones), rest))
            } else {
                None
            }
        }
        [hundreds, tens, ones, b'\n', rest @ ..] => {
            if is_above_zero(*hundreds) && is_digit(*tens) && is_digit(*ones) {
                let above = 10 * value_of(*hundreds) + value_of(*tens);
                Some((10 * above + value_of(*ones), rest))
            } else {
                None
            }
        }
        _ => None,
    }
}

/// Whether the byte is a digit from 1 to 9.
fn is_above_zero(byte: u8) -> bool
    ensures { result ≡ (nat_le 49 byte && nat_le byte 57) }
{
    (b'1'..=b'9').contains(&byte)
}

/// Whether the byte is a digit.
fn is_digit(byte: u8) -> bool
    ensures { result ≡ is_digit byte }
{
    (b'0'..=b'9').contains(&byte)
}

/// The value of a digit.
fn value_of(digit: u8) -> u32
    requires { is_digit digit ≡ true }
    ensures { result ≡ digit - 48 }
{
    u32::from(digit - b'0')
}

/// What follows the first text line of a text.
pub(crate) fn after_line<'a>(text: &'a [u8], line: &[u8]) -> &'a [u8]
    ensures { (left : List (List ℕ)) → text_lines text.now ≡ line.now ∷ left
        → text_lines result.now ≡ left }
{
    if line.len() < text.len() {
        &text[line.len() + 1..]
    } else {
        &[]
    }
}
