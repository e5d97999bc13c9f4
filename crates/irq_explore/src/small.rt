//! Numbers of rows take 32 bits, since the program's own do.
ghost use Rattle.std.specs.Prelude.{All};
ghost use Rattle.irq_explore.specs.Printing.{HasSmallAnswer};
ghost use Rattle.log_text.specs.Formed.{HasSmallNumbers, IsSmall};

use irq_base::{Entry, LineNo};
use line_survey::Answer;

/// Each number of the entry takes 32 bits.
fn is_small(entry: Entry)
    ensures { HasSmallNumbers entry }
{
    let _ = entry;
}

/// Each number of the entries takes 32 bits.
fn are_small(entries: &[Entry])
    ensures { All HasSmallNumbers entries.now }
{
    for i in 0..entries.len() {
        is_small(entries[i]);
    }
}

/// Each number of the answer's rows takes 32 bits.
pub(crate) fn answer_is_small(line: LineNo, answer: &Answer)
    ensures number { IsSmall line.0 }
    ensures entries { HasSmallAnswer answer.now }
{
    let _ = line;
    match answer {
        Answer::Found(entries) => are_small(entries.as_slice()),
        Answer::Never | Answer::NotWithin(_) => {}
    }
}
