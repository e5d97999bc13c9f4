//! The words of what a driver does.
ghost use Rattle.std.specs.Prelude.{◌≡◌};
ghost use Rattle.log_read.specs.Forms.{TakesDriver};
ghost use Rattle.log_read.specs.Kinds.{driver_verb_word};
ghost use Rattle.log_read.specs.Takes.{Any, Reads};
ghost use Rattle.log_read.specs.declared.drivers.DriverVerb.TheVariants as driver_verbs;

use crate::answers::flags;
use crate::lasts::edge;
use crate::numbers::number;
use crate::said::{linked, moved};
use crate::words::Words;
use irq_base::{DevNo, DriverEntry};

/// The word that tells what follows, of what only a driver does.
#[derive(Clone, Copy)]
pub(crate) enum DriverVerb {
    Ask,
    Request,
    Affinity,
    Moment,
}

pub(crate) fn driver_verb_of(word: &[u8]) -> Option<DriverVerb>
    ensures { Reads Any driver_verb_word word.now result }
{
    match word {
        b"ask" => Some(DriverVerb::Ask),
        b"request" => Some(DriverVerb::Request),
        b"affinity" => Some(DriverVerb::Affinity),
        b"moment" => Some(DriverVerb::Moment),
        _ => None,
    }
}

/// What follows the verb.
pub(crate) fn driver_entry(words: &mut Words<'_>, verb: DriverVerb) -> DriverEntry
    ensures { TakesDriver verb words.old words.new result }
{
    match verb {
        DriverVerb::Ask => ask(words),
        DriverVerb::Request => request(words),
        DriverVerb::Affinity => affinity(words),
        DriverVerb::Moment => moment(words),
    }
}

fn ask(words: &mut Words<'_>) -> DriverEntry
    ensures { TakesDriver driver_verbs.Ask words.old words.new result }
{
    let dev = DevNo(number(words));
    let edge = edge(words);
    DriverEntry::Ask { edge, dev }
}

fn request(words: &mut Words<'_>) -> DriverEntry
    ensures { TakesDriver driver_verbs.Request words.old words.new result }
{
    let dev = DevNo(number(words));
    let flags = flags(words);
    let (answer, opened) = linked(words);
    DriverEntry::Request {
        flags,
        answer,
        opened,
        dev,
    }
}

fn affinity(words: &mut Words<'_>) -> DriverEntry
    ensures { TakesDriver driver_verbs.Affinity words.old words.new result }
{
    let mask = number(words);
    let answer = moved(words);
    DriverEntry::Affinity { answer, mask }
}

fn moment(words: &mut Words<'_>) -> DriverEntry
    ensures { TakesDriver driver_verbs.Moment words.old words.new result }
{
    let at = number(words);
    DriverEntry::Moment { at }
}
