//! Answers of more than one word.
ghost use Rattle.std.specs.Prelude.{◌≡◌};
ghost use Rattle.log_text.specs.Words.{opened_words, enable_words, affinity_words};
ghost use Rattle.log_read.specs.Forms.{TakesOpening, TakesEnabling, TakesLinking, TakesMoving};
ghost use Rattle.log_read.specs.Forms.{IsLink, IsMoved, link_said};
ghost use Rattle.log_read.specs.Takes.{Takes, TakesAs};

use crate::answers::{error, resend};
use crate::kinds::{Linking, Moving, Opening, linked_as, moved_as, opened_as};
use crate::numbers::expect;
use crate::words::Words;
use irq_base::{AffinityAnswer, EnableAnswer, Errno, LinkAnswer, Opened};

/// What a request made of the line's depth.
pub(crate) fn opened(words: &mut Words<'_>) -> Opened
    ensures { Takes opened_words words.old words.new result }
{
    let opening = opened_as(words);
    opened_behind(words, opening)
}

fn opened_behind(words: &mut Words<'_>, opening: Opening) -> Opened
    ensures { TakesOpening opening words.old words.new result }
{
    match opening {
        Opening::No => Opened::No,
        Opening::Unbalanced => Opened::Unbalanced,
        Opening::Lowered => Opened::Lowered,
        Opening::Started => Opened::Started {
            resend: resend(words),
        },
    }
}

/// What an enable answers.
pub(crate) fn enabled(words: &mut Words<'_>) -> EnableAnswer
    ensures { Takes enable_words words.old words.new result }
{
    let opening = opened_as(words);
    enabled_behind(words, opening)
}

fn enabled_behind(words: &mut Words<'_>, opening: Opening) -> EnableAnswer
    ensures { TakesEnabling opening words.old words.new result }
{
    match opening {
        Opening::No => {
            words.fail();
            EnableAnswer::Unbalanced
        }
        Opening::Unbalanced => EnableAnswer::Unbalanced,
        Opening::Lowered => EnableAnswer::Lowered,
        Opening::Started => EnableAnswer::Started {
            resend: resend(words),
        },
    }
}

/// What a request answers, and what it opened.
pub(crate) fn linked(words: &mut Words<'_>) -> (LinkAnswer, Opened)
    ensures { TakesAs IsLink link_said (λ link. link) words.old words.new result }
{
    let linking = linked_as(words);
    linked_behind(words, linking)
}

fn linked_behind(words: &mut Words<'_>, linking: Linking) -> (LinkAnswer, Opened)
    ensures { TakesLinking linking words.old words.new result }
{
    match linking {
        Linking::Linked => (LinkAnswer::Linked, opened(words)),
        Linking::Refused => (LinkAnswer::Refused(error(words)), Opened::No),
    }
}

/// What a change of affinity answers.
pub(crate) fn moved(words: &mut Words<'_>) -> AffinityAnswer
    ensures { TakesAs IsMoved affinity_words (λ answer. answer) words.old words.new result }
{
    let moving = moved_as(words);
    moved_behind(words, moving)
}

fn moved_behind(words: &mut Words<'_>, moving: Moving) -> AffinityAnswer
    ensures { TakesMoving moving words.old words.new result }
{
    match moving {
        Moving::Now => AffinityAnswer::Now,
        Moving::Later => AffinityAnswer::Later,
        Moving::Refused => {
            expect(words, b"22");
            AffinityAnswer::Refused(Errno::Inval)
        }
    }
}
