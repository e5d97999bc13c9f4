//! Single rows.
ghost use Rattle.std.specs.Prelude.{◌≡◌, ◌+◌, ◌≤◌, ◌++◌, decimal, length};
ghost use Rattle.explore_words.specs.Rows.{hung_words, joined, standing_word, waits_word};
ghost use Rattle.explore_words.specs.Rows.{wanted_words};
ghost use Rattle.line_wanted.specs.declared.wanted.Wanted.TheVariants as wants;
ghost use Rattle.log_text.specs.Spaced.{spaced};
ghost use Rattle.irq_explore.specs.SurveyTexts.{cut_text, rest_text, totals_text};

use irq_base::{Actor, LineNo};
use line_survey::{RestRow, Survey};
use line_wanted::{Left, Standing};
use log_text::push_actor;
use text_row::TextRow;

/// The most digits of a u64.
const MAX_DIGITS: usize = 20;

/// Adds the number in decimal digits.
#[tactic(auto, using(std::proofs::lemmas::Fmt::decimal_digit))]
fn push_long(row: &mut TextRow, number: u64)
    requires { length row.old ≤ 300 }
    ensures text { row.new ≡ row.old ++ decimal number }
    ensures grows { length row.new ≤ length row.old + 20 }
{
    let mut digits = [0; MAX_DIGITS];
    let start = itoa::write_digits(number, &mut digits, MAX_DIGITS);
    row.push_bytes(&digits[start..]);
}

/// Adds at which length the search was cut, if it was.
fn push_cut(row: &mut TextRow, cut: Option<u32>)
    requires { length row.old ≤ 200 }
    ensures text { row.new ≡ row.old ++ cut_text cut }
    ensures grows { length row.new ≤ length row.old + 15 }
{
    if let Some(cut) = cut {
        row.push_bytes(b" cut ");
        row.push_number(cut);
    }
}

/// Writes the row of totals: the line's states, their moves, and how many are at rest. What the row
/// held before is gone.
pub fn totals_row(row: &mut TextRow, line: LineNo, survey: &Survey)
    ensures { row.new ≡ totals_text line survey.now }
{
    row.clear();
    row.push_bytes(b"line ");
    row.push_number(line.0);
    row.push_bytes(b" states ");
    row.push_number(survey.states);
    row.push_bytes(b" moves ");
    push_long(row, survey.moves);
    row.push_bytes(b" rest ");
    row.push_number(survey.rest);
    push_cut(row, survey.cut);
    row.push(b'\n');
}

/// The word for how a line stands.
fn word_of_standing(standing: Standing) -> &'static [u8]
    ensures word { result.now ≡ standing_word standing }
    ensures short { length result.now ≤ 8 }
{
    match standing {
        Standing::Stopped => b"stopped",
        Standing::Enabled => b"enabled",
        Standing::Disabled => b"disabled",
        Standing::Killed => b"killed",
    }
}

/// The word for what waits on an edge line.
fn word_of_waits(stored: bool, pending: bool) -> &'static [u8]
    ensures word { result.now ≡ waits_word (stored, pending) }
    ensures short { length result.now ≤ 7 }
{
    match (stored, pending) {
        (false, false) => b"-",
        (true, false) => b"stored",
        (false, true) => b"pending",
        (true, true) => b"both",
    }
}

/// Adds who is hung, if somebody is.
fn push_hung_one(row: &mut TextRow, hung: Option<Actor>)
    requires { length row.old ≤ 40 }
    ensures text { row.new ≡ row.old ++ spaced (hung_words hung) }
    ensures grows { length row.new ≤ length row.old + 17 }
{
    if let Some(actor) = hung {
        row.push_bytes(b" hung");
        push_actor(row, actor);
    }
}

/// Adds the words that ask for this way to be left.
fn push_left(row: &mut TextRow, line: LineNo, left: Left)
    requires { length row.old ≤ 20 }
    ensures text { row.new ≡ row.old ++ joined (wanted_words line (wants.Rest left)) }
    ensures grows { length row.new ≤ length row.old + 80 }
{
    row.push_number(line.0);
    row.push_bytes(b" rest");
    push_hung_one(row, left.hung);
    row.push(b' ');
    row.push_bytes(word_of_standing(left.standing));
    row.push(b' ');
    push_long(row, left.unserved);
    row.push(b' ');
    row.push_bytes(word_of_waits(left.stored, left.pending));
}

/// Writes the row of a way in which the line can be left. What the row held before is gone.
pub fn rest_row(row: &mut TextRow, line: LineNo, rest: RestRow)
    ensures { row.new ≡ rest_text line rest }
{
    row.clear();
    row.push_number(rest.len);
    row.push(b' ');
    push_left(row, line, rest.left);
    row.push_bytes(b" states ");
    row.push_number(rest.states);
    row.push(b'\n');
}
