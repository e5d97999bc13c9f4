//! Statements on the parts of a board.
ghost use Rattle.std.specs.Prelude.{◌≡◌, ◌||◌};
ghost use Rattle.board_words.specs.Forms as forms;
ghost use Rattle.board_words.specs.Keywords.{part_text};
ghost use Rattle.board_words.specs.Places.{reads};
ghost use Rattle.board_words.specs.Seen.{words_left};
ghost use Rattle.board_words.specs.Statements as said;
ghost use Rattle.board_words.specs.declared.keywords.PartWord.TheVariants as parts;
ghost use Rattle.board_words.specs.declared.statements.Statement.TheVariants as statements;

use crate::faults::FaultKind;
use crate::keywords::PartWord;
use crate::places::Places;
use crate::statements::{DeviceWords, DomainWords, LineWords, Statement};
use crate::words::Words;
use irq_base::{DevNo, DriverNo, LineNo, Part};

/// The one number of a statement that has nothing else.
pub(crate) fn sole_number(words: Words<'_>, low: u32, high: u32) -> Result<u32, FaultKind>
    ensures { result
        ≡ reads (forms.at (forms.number low high) forms.full) (said.number_at 0) words.entry }
{
    let mut places = Places::new(words);
    let number = places.number(low, high);
    places.full();
    places.give(number)
}

/// What a statement on a part of the board says in a text of this version; `words` are those after
/// the first.
pub(crate) fn read_part(
    part: PartWord,
    words: Words<'_>,
    version: u32,
) -> Result<Statement, FaultKind>
    ensures { result
        ≡ reads (forms.form_after version (part_text part)) (said.statement_after (part_text part))
        words.entry }
{
    match part {
        PartWord::Board => Ok(Statement::Board(sole_number(words, 1, 3)?)),
        PartWord::Cpus => Ok(Statement::Cpus(sole_number(words, 1, 32)?)),
        PartWord::Spurious => spurious(words),
        PartWord::Log => Ok(Statement::Log(sole_number(words, 1, 1_000_000)?)),
        PartWord::Domain => domain(words, version),
        PartWord::Line => line(words),
        PartWord::Device => device(words, version),
        PartWord::Handler => runs(words, Part::Primary),
        PartWord::Thread => runs(words, Part::Thread),
        PartWord::Driver => {
            let driver = sole_number(words, 1, 65_535)?;
            Ok(Statement::Driver(DriverNo(driver)))
        }
    }
}

/// What follows `spurious`.
fn spurious(words: Words<'_>) -> Result<Statement, FaultKind>
    ensures { result
        ≡ reads forms.spurious_form (said.statement_after (part_text parts.Spurious)) words.entry }
{
    let mut places = Places::new(words);
    let window = places.number(1, 1_000_000);
    let limit = places.number(0, window.saturating_sub(1));
    places.full();
    places.give(Statement::Spurious { window, limit })
}

/// What follows `domain`.
fn domain(words: Words<'_>, version: u32) -> Result<Statement, FaultKind>
    ensures { result
        ≡ reads (forms.form_after version (part_text parts.Domain))
        (said.statement_after (part_text parts.Domain)) words.entry }
{
    let mut places = Places::new(words);
    let name = places.name();
    let map = places.map();
    let kind = places.controller_kind(version);
    let (parent, twice) = places.parent();
    places.give(Statement::Domain(DomainWords {
        name,
        map,
        kind,
        parent,
        twice,
    }))
}

/// What follows `line`.
fn line(words: Words<'_>) -> Result<Statement, FaultKind>
    ensures { result
        ≡ reads (forms.at forms.part_number
        (forms.at forms.name (forms.at forms.mask_number forms.line_options)))
        (said.statement_after (part_text parts.Line)) words.entry }
{
    let mut places = Places::new(words);
    let line = LineNo(places.number(1, 65_535));
    let domain = places.name();
    let hw = places.number(0, u32::MAX);
    let options = places.words;
    let mask = places.options();
    places.give(Statement::Line(LineWords {
        line,
        domain,
        hw,
        unlazy: options.has(b"unlazy"),
        later: options.has(b"later"),
        mask,
        twice: has_one_again(options, b"unlazy", b"later", b"mask"),
    }))
}

/// Whether one of the three texts is among the words more than once.
pub(crate) fn has_one_again(words: Words<'_>, one: &[u8], two: &[u8], three: &[u8]) -> bool
    ensures { result
        ≡ (said.stands_again one.now
        (words_left words.entry) || (said.stands_again two.now
        (words_left words.entry) || said.stands_again three.now (words_left words.entry))) }
{
    words.has_again(one) || words.has_again(two) || words.has_again(three)
}

/// Whether one of the two texts is among the words more than once.
fn has_either_again(words: Words<'_>, one: &[u8], two: &[u8]) -> bool
    ensures { result
        ≡ (said.stands_again one.now (words_left words.entry) || said.stands_again two.now
        (words_left words.entry)) }
{
    words.has_again(one) || words.has_again(two)
}

/// What follows `device`.
fn device(words: Words<'_>, version: u32) -> Result<Statement, FaultKind>
    ensures { result
        ≡ reads (forms.form_after version (part_text parts.Device))
        (said.statement_after (part_text parts.Device)) words.entry }
{
    let mut places = Places::new(words);
    let dev = DevNo(places.number(1, 65_535));
    let line = LineNo(places.number(1, 65_535));
    let kind = places.device_kind(version);
    let options = places.words;
    places.device_options(version);
    places.give(Statement::Device(DeviceWords {
        dev,
        line,
        kind,
        held: options.has(b"held"),
        forgets: options.has(b"forgets"),
        twice: has_either_again(options, b"held", b"forgets"),
    }))
}

/// What follows `handler` or `thread`.
fn runs(words: Words<'_>, part: Part) -> Result<Statement, FaultKind>
    ensures { result
        ≡ reads (forms.at forms.part_number forms.full)
        (λ words. statements.Runs (said.dev_at 0 words) part) words.entry }
{
    let dev = DevNo(sole_number(words, 1, 65_535)?);
    Ok(Statement::Runs { dev, part })
}
