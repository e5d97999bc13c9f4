//! The first words of answers, which tell what follows.
ghost use Rattle.std.specs.Prelude.{◌≡◌};
ghost use Rattle.log_read.specs.Kinds.{opening_word, linking_word, moving_word};
ghost use Rattle.log_read.specs.Takes.{Any, Reads, Takes, one};

use crate::words::Words;

/// The first word of what became of a line's depth.
#[derive(Clone, Copy)]
pub(crate) enum Opening {
    No,
    Unbalanced,
    Lowered,
    Started,
}

/// The first word of a request's answer.
#[derive(Clone, Copy)]
pub(crate) enum Linking {
    Linked,
    Refused,
}

/// The first word of the answer to a mask.
#[derive(Clone, Copy)]
pub(crate) enum Moving {
    Now,
    Later,
    Refused,
}

pub(crate) fn opened_as(words: &mut Words<'_>) -> Opening
    ensures { Takes (one opening_word) words.old words.new result }
{
    let word = words.next();
    words.fit(opening_of(word), Opening::No)
}

fn opening_of(word: &[u8]) -> Option<Opening>
    ensures { Reads Any opening_word word.now result }
{
    match word {
        b"no" => Some(Opening::No),
        b"unbalanced" => Some(Opening::Unbalanced),
        b"lowered" => Some(Opening::Lowered),
        b"started" => Some(Opening::Started),
        _ => None,
    }
}

pub(crate) fn linked_as(words: &mut Words<'_>) -> Linking
    ensures { Takes (one linking_word) words.old words.new result }
{
    let word = words.next();
    words.fit(linking_of(word), Linking::Linked)
}

fn linking_of(word: &[u8]) -> Option<Linking>
    ensures { Reads Any linking_word word.now result }
{
    match word {
        b"linked" => Some(Linking::Linked),
        b"refused" => Some(Linking::Refused),
        _ => None,
    }
}

pub(crate) fn moved_as(words: &mut Words<'_>) -> Moving
    ensures { Takes (one moving_word) words.old words.new result }
{
    let word = words.next();
    words.fit(moving_of(word), Moving::Now)
}

fn moving_of(word: &[u8]) -> Option<Moving>
    ensures { Reads Any moving_word word.now result }
{
    match word {
        b"now" => Some(Moving::Now),
        b"later" => Some(Moving::Later),
        b"refused" => Some(Moving::Refused),
        _ => None,
    }
}
