//! Numbers of a row, and who made an entry.
ghost use Rattle.std.specs.Prelude.{◌≡◌, ◌∷◌, codes, decimal, MatchOption};
ghost use Rattle.log_text.specs.EntryWords.{actor_word};
ghost use Rattle.log_text.specs.Formed.{IsSmall};
ghost use Rattle.log_read.specs.Takes.{Any, Reads, Takes, TakesAs, number_words, one, text_words};
ghost use Rattle.log_read.specs.Who.{HasSmallActor};

use crate::words::Words;
use irq_base::{Actor, CpuNo, DevNo, DriverNo};

/// Takes a number of 32 bits.
pub(crate) fn number(words: &mut Words<'_>) -> u32
    ensures { TakesAs IsSmall number_words (λ n. n) words.old words.new result }
{
    let word = words.next();
    words.fit(number_of(word), 0)
}

/// The number of 32 bits that the word spells, in decimal digits without a leading zero.
#[tactic(auto, using(crate::proofs::Digits::number_read))]
pub fn number_of(word: &[u8]) -> Option<u32>
    ensures { Reads IsSmall decimal word.now result }
{
    board_words::number(word, 0, u32::MAX)
}

/// Takes a letter, and the number right behind it.
pub(crate) fn made_by(words: &mut Words<'_>) -> Actor
    ensures { TakesAs HasSmallActor (one actor_word) (λ a. a) words.old words.new result }
{
    let word = words.next();
    words.fit(actor_named(word), Actor::Cpu(CpuNo(0)))
}

/// The actor that the word names, by a letter and the number right behind it.
pub fn actor_named(word: &[u8]) -> Option<Actor>
    ensures { Reads HasSmallActor actor_word word.now result }
{
    let (letter, digits) = word.split_first()?;
    match *letter {
        b'c' => Some(Actor::Cpu(CpuNo(number_of(digits)?))),
        b'd' => Some(Actor::Driver(DriverNo(number_of(digits)?))),
        b't' => Some(Actor::Thread(DevNo(number_of(digits)?))),
        _ => None,
    }
}

/// Takes the next word, which has to be `text`.
pub(crate) fn expect(words: &mut Words<'_>, text: &[u8])
    ensures { TakesAs Any (text_words text.now) (λ u. u) words.old words.new tt }
{
    if words.next() != text {
        words.fail();
    }
}
