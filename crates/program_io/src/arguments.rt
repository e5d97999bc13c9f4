//! The words of the command line, from the arguments as they come.
ghost use Rattle.std.specs.Prelude.{◌≡◌, IfOk, IfErr, map, string_bytes};
ghost use Rattle.std.specs.Vec.Iter.{into_iter_items};
ghost use Rattle.program_io.specs.Arguments.{AreText, IsRefusal, after_name};

use irq_base::NoMemory;
use std::alloc::Global;
use std::env::Args;
use std::io::{self, ErrorKind};
use thiserror::Error;

/// Why arguments give no words.
#[derive(Clone, Copy, Debug, PartialEq, Eq, Error)]
pub enum ArgumentsRefused {
    /// One of them isn't UTF-8.
    #[error("an argument isn't text")]
    NotText,
    /// Memory was needed and refused.
    #[error("out of memory")]
    NoMemory,
}

/// The words after the program's name.
///
/// # Errors
///
/// `NotText` if one of the arguments isn't UTF-8; else `NoMemory` if memory was refused.
pub fn words_of(alloc: Global, args: io::Result<Args>) -> Result<Vec<String>, ArgumentsRefused>
    ensures words { IfOk result (λ words. AreText args (map string_bytes words.items)) }
    ensures refused { IfErr result (IsRefusal args) }
{
    match args {
        Ok(args) => match after_name(alloc, args) {
            Ok(words) => Ok(words),
            Err(NoMemory) => Err(ArgumentsRefused::NoMemory),
        },
        Err(error) if error.kind() == ErrorKind::InvalidData => Err(ArgumentsRefused::NotText),
        Err(_) => Err(ArgumentsRefused::NoMemory),
    }
}

/// All arguments but the first.
fn after_name(alloc: Global, args: Args) -> Result<Vec<String>, NoMemory>
    ensures { IfOk result (λ words. words.items ≡ after_name (into_iter_items args)) }
{
    let mut left = args;
    let _ = left.next();
    let mut words = Vec::new(alloc);
    while let Some(word) = left.next() {
        words.push(word)?;
    }
    Ok(words)
}

/// The words as text that is lent. The only error is `NoMemory`.
pub fn lend(alloc: Global, words: &[String]) -> Result<Vec<&str>, NoMemory>
    ensures { IfOk result (λ lent. map (λ w. w.now) lent.items ≡ map string_bytes words.now) }
{
    let mut lent = Vec::new(alloc);
    for word in words {
        lent.push(word.as_str())?;
    }
    Ok(lent)
}
