//! The pieces that a row is put together from: words, each with a space before it.
ghost use Rattle.std.specs.Prelude.{◌≡◌, ◌+◌, ◌≤◌, [], ◌∷◌, ◌++◌, length, codes, decimal};
ghost use Rattle.log_text.specs.EntryWords.{actor_word};
ghost use Rattle.log_text.specs.Spaced.{spaced};

use irq_base::Actor;
use text_row::TextRow;

/// Adds a space and the word, which may be long.
pub(crate) fn push_long_word(row: &mut TextRow, word: &[u8])
    requires { length row.old + length word.now ≤ 319 }
    ensures text { row.new ≡ row.old ++ spaced (word.now ∷ []) }
    ensures grows { length row.new ≤ length row.old + 1 + length word.now }
{
    row.push(b' ');
    row.push_bytes(word);
}

/// Adds a space and the word.
pub(crate) fn push_word(row: &mut TextRow, word: &[u8])
    requires short { length word.now ≤ 11 }
    requires room { length row.old ≤ 308 }
    ensures text { row.new ≡ row.old ++ spaced (word.now ∷ []) }
    ensures grows { length row.new ≤ length row.old + 12 }
{
    row.push(b' ');
    row.push_bytes(word);
}

/// Adds a space, the name, a colon, and the number right behind it.
pub(crate) fn push_named(row: &mut TextRow, name: &[u8], number: u32)
    requires name { length name.now ≤ 16 }
    requires room { length row.old ≤ 292 }
    ensures text { row.new ≡ row.old ++ spaced ((name.now ++ codes ":" ++ decimal number) ∷ []) }
    ensures grows { length row.new ≤ length row.old + 28 }
{
    row.push(b' ');
    row.push_bytes(name);
    row.push(b':');
    row.push_number(number);
}

/// Adds a space and the number.
pub(crate) fn push_number(row: &mut TextRow, number: u32)
    requires { length row.old ≤ 308 }
    ensures text { row.new ≡ row.old ++ spaced (decimal number ∷ []) }
    ensures grows { length row.new ≤ length row.old + 12 }
{
    row.push(b' ');
    row.push_number(number);
}

/// Adds a space, the letter, and the number right behind it.
fn push_lettered(row: &mut TextRow, letter: u8, number: u32)
    requires { length row.old ≤ 308 }
    ensures text { row.new ≡ row.old ++ spaced ((letter ∷ decimal number) ∷ []) }
    ensures grows { length row.new ≤ length row.old + 12 }
{
    row.push(b' ');
    row.push(letter);
    row.push_number(number);
}

/// Adds a space and the actor, a letter with its number.
pub fn push_actor(row: &mut TextRow, actor: Actor)
    requires { length row.old ≤ 308 }
    ensures text { row.new ≡ row.old ++ spaced (actor_word actor ∷ []) }
    ensures grows { length row.new ≤ length row.old + 12 }
{
    match actor {
        Actor::Cpu(cpu) => push_lettered(row, b'c', cpu.0),
        Actor::Thread(dev) => push_lettered(row, b't', dev.0),
        Actor::Driver(driver) => push_lettered(row, b'd', driver.0),
    }
}
