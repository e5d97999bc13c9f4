//! The words of an entry: who made it, and what its maker did.
ghost use Rattle.irq_base.specs.declared.entries.Actor.TheVariants as actors;
ghost use Rattle.log_text.specs.EntryWords.{entry_words, said_words};
ghost use Rattle.log_text.specs.Formed.{IsWritable};
ghost use Rattle.log_read.specs.Forms.{IsBy};
ghost use Rattle.log_read.specs.Takes.{EndsAs};

use crate::calls::call;
use crate::cpus::{cpu_entry, cpu_verb_of};
use crate::drivers::{driver_entry, driver_verb_of};
use crate::numbers::made_by;
use crate::threads::{thread_entry, thread_verb_of};
use crate::words::Words;
use irq_base::{Actor, CpuNo, DevNo, DriverNo, Entry};

/// An entry, which ends a row.
pub(crate) fn entry(words: &mut Words<'_>) -> Entry
    ensures { EndsAs IsWritable entry_words (λ e. e) words.old words.new result }
{
    let actor = made_by(words);
    entry_by(words, actor)
}

fn entry_by(words: &mut Words<'_>, actor: Actor) -> Entry
    ensures { EndsAs (IsBy actor) said_words (λ e. e) words.old words.new result }
{
    match actor {
        Actor::Cpu(cpu) => by_cpu(words, cpu),
        Actor::Thread(dev) => by_thread(words, dev),
        Actor::Driver(driver) => by_driver(words, driver),
    }
}

fn by_cpu(words: &mut Words<'_>, cpu: CpuNo) -> Entry
    ensures { EndsAs (IsBy (actors.Cpu cpu)) said_words (λ e. e) words.old words.new result }
{
    let word = words.next();
    match cpu_verb_of(word) {
        Some(verb) => Entry::Cpu(cpu, cpu_entry(words, verb)),
        None => Entry::CpuCall(cpu, call(words, word)),
    }
}

fn by_thread(words: &mut Words<'_>, dev: DevNo) -> Entry
    ensures { EndsAs (IsBy (actors.Thread dev)) said_words (λ e. e) words.old words.new result }
{
    let word = words.next();
    match thread_verb_of(word) {
        Some(verb) => Entry::Thread(dev, thread_entry(words, verb)),
        None => Entry::ThreadCall(dev, call(words, word)),
    }
}

fn by_driver(words: &mut Words<'_>, driver: DriverNo) -> Entry
    ensures { EndsAs (IsBy (actors.Driver driver)) said_words (λ e. e) words.old words.new result }
{
    let word = words.next();
    match driver_verb_of(word) {
        Some(verb) => Entry::Driver(driver, driver_entry(words, verb)),
        None => Entry::DriverCall(driver, call(words, word)),
    }
}
