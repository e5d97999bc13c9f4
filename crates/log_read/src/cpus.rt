//! The words of what a processor does.
ghost use Rattle.std.specs.Prelude.{◌≡◌};
ghost use Rattle.log_read.specs.Forms.{TakesCpu};
ghost use Rattle.log_read.specs.Kinds.{cpu_verb_word};
ghost use Rattle.log_read.specs.Takes.{Any, Reads};
ghost use Rattle.log_read.specs.declared.cpus.CpuVerb.TheVariants as cpu_verbs;

use crate::answers::{again, answer, note, take_answer, unmask, way};
use crate::numbers::number;
use crate::words::Words;
use irq_base::{CpuEntry, DevNo};

/// The word that tells what follows.
#[derive(Clone, Copy)]
pub(crate) enum CpuVerb {
    Take,
    Begin,
    Return,
    End,
}

pub(crate) fn cpu_verb_of(word: &[u8]) -> Option<CpuVerb>
    ensures { Reads Any cpu_verb_word word.now result }
{
    match word {
        b"take" => Some(CpuVerb::Take),
        b"begin" => Some(CpuVerb::Begin),
        b"return" => Some(CpuVerb::Return),
        b"end" => Some(CpuVerb::End),
        _ => None,
    }
}

/// What follows the verb.
pub(crate) fn cpu_entry(words: &mut Words<'_>, verb: CpuVerb) -> CpuEntry
    ensures { TakesCpu verb words.old words.new result }
{
    match verb {
        CpuVerb::Take => take(words),
        CpuVerb::Begin => begin(words),
        CpuVerb::Return => returned(words),
        CpuVerb::End => end(words),
    }
}

fn take(words: &mut Words<'_>) -> CpuEntry
    ensures { TakesCpu cpu_verbs.Take words.old words.new result }
{
    let way = way(words);
    let answer = take_answer(words);
    CpuEntry::Take { way, answer }
}

fn begin(words: &mut Words<'_>) -> CpuEntry
    ensures { TakesCpu cpu_verbs.Begin words.old words.new result }
{
    let dev = DevNo(number(words));
    CpuEntry::Begin { dev }
}

fn returned(words: &mut Words<'_>) -> CpuEntry
    ensures { TakesCpu cpu_verbs.Return words.old words.new result }
{
    let dev = DevNo(number(words));
    let answer = answer(words);
    let served = number(words);
    CpuEntry::Return {
        answer,
        dev,
        served,
    }
}

fn end(words: &mut Words<'_>) -> CpuEntry
    ensures { TakesCpu cpu_verbs.End words.old words.new result }
{
    let again = again(words);
    let unmask = unmask(words);
    let note = note(words);
    CpuEntry::End {
        again,
        unmask,
        note,
    }
}
