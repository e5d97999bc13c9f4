//! The words of what a thread does.
ghost use Rattle.std.specs.Prelude.{◌≡◌};
ghost use Rattle.log_read.specs.Forms.{TakesThread};
ghost use Rattle.log_read.specs.Kinds.{thread_verb_word};
ghost use Rattle.log_read.specs.Takes.{Any, Reads};
ghost use Rattle.log_read.specs.declared.threads.ThreadVerb.TheVariants as thread_verbs;

use crate::answers::{kept, unmask};
use crate::lasts::handled;
use crate::numbers::number;
use crate::words::Words;
use irq_base::ThreadEntry;

/// The word that tells what follows.
#[derive(Clone, Copy)]
pub(crate) enum ThreadVerb {
    Begin,
    Return,
    Finish,
    Done,
}

pub(crate) fn thread_verb_of(word: &[u8]) -> Option<ThreadVerb>
    ensures { Reads Any thread_verb_word word.now result }
{
    match word {
        b"begin" => Some(ThreadVerb::Begin),
        b"return" => Some(ThreadVerb::Return),
        b"finish" => Some(ThreadVerb::Finish),
        b"done" => Some(ThreadVerb::Done),
        _ => None,
    }
}

/// What follows the verb.
pub(crate) fn thread_entry(words: &mut Words<'_>, verb: ThreadVerb) -> ThreadEntry
    ensures { TakesThread verb words.old words.new result }
{
    match verb {
        ThreadVerb::Begin => ThreadEntry::Begin,
        ThreadVerb::Return => returned(words),
        ThreadVerb::Finish => finish(words),
        ThreadVerb::Done => ThreadEntry::Done,
    }
}

fn returned(words: &mut Words<'_>) -> ThreadEntry
    ensures { TakesThread thread_verbs.Return words.old words.new result }
{
    let served = number(words);
    let handled = handled(words, served > 0);
    ThreadEntry::Return { handled, served }
}

fn finish(words: &mut Words<'_>) -> ThreadEntry
    ensures { TakesThread thread_verbs.Finish words.old words.new result }
{
    let kept = kept(words);
    let unmask = unmask(words);
    ThreadEntry::Finish { kept, unmask }
}
