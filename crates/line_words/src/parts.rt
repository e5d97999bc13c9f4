//! The parts whose numbers have a fixed place.
ghost use Rattle.std.specs.Prelude.{◌≡◌, ◌<◌, ◌≤◌, IsSome, true, []};
ghost use Rattle.irq_model.specs.Signal.{lowest_in};
ghost use Rattle.irq_model.specs.Valid.{IsValid};
ghost use Rattle.affinity.specs.Kept.{HasProcessor};
ghost use Rattle.spurious.specs.Tallies.{rule_counts};
ghost use Rattle.line_futures.specs.Canon.{canon};
ghost use Rattle.line_words.specs.Reading.{word_at, mask_at, desc_in, cell_in, aim_in, round_in};
ghost use Rattle.line_words.specs.Reading.{counts_in, actor_in, freeing_in, with_fixed};
ghost use Rattle.line_words.specs.Runs.{AreSameRuns};
ghost use Rattle.line_words.specs.Words.{actor_word, actor_number, marks_words, desc_words};
ghost use Rattle.line_words.specs.Words.{round_words, freeing_words};

use crate::words::{bit, cpu, dev, dev_number, flag, mask, mask_number, number_of, serves, word};
use affinity::Aim;
use desc_state::{Desc, DescMarks};
use irq_base::{Actor, Chip, CpuNo, DevNo, DriverNo, LineDef};
use line_cell::{Cell, CellMarks};
use line_state::{LineState, Round};
use spurious::{Counts, Tally};

/// The descriptor.
fn desc(def: &LineDef, words: &[u32]) -> Desc
    ensures { result ≡ desc_in def.now words.now }
{
    Desc::of_marks(DescMarks {
        unlazy: def.unlazy,
        depth: word(words, 0),
        started: bit(words, 1),
        masked: bit(words, 2),
        pending: bit(words, 3),
        oneshot: bit(words, 4),
        spurious: bit(words, 5),
        soft: bit(words, 6),
        flow: cpu(words, 7),
    })
}

/// The chip. Its mask is the descriptor's; it keeps an interrupt in service while a flow is in
/// progress. It is active, as a step that opens it needs it.
fn cell(def: &LineDef, words: &[u32]) -> Cell
    ensures cell { ⟦<Cell as Chip>⟧.cell result ≡ cell_in def.now words.now }
    ensures active { ⟦<Cell as Chip>⟧.active result ≡ true }
    ensures aimed { ⟦<Cell as Chip>⟧.aimed result ≡ 0 }
{
    Cell::of_marks(CellMarks {
        trigger: def.trigger,
        keeps: def.keeps,
        recalls: def.recalls,
        retriggers: def.retriggers,
        serves: serves(def),
        masked: bit(words, 2),
        stored: bit(words, 9),
        sent: bit(words, 10),
        high: bit(words, 11),
        in_service: serves(def) && bit(words, 7),
        active: true,
        target: CpuNo(0),
    })
}

/// The affinity.
fn aim(def: &LineDef, words: &[u32]) -> Aim
    requires few { def.now.cpus ≤ 32 }
    requires some { IsSome (lowest_in def.now.cpus (word_at words.now 12)) }
    requires waits { HasProcessor def.now.cpus (mask_at words.now 13) }
    ensures { result ≡ aim_in def.now words.now }
{
    Aim::of(def.cpus, def.later, word(words, 12), mask(words, 13))
}

/// The round.
fn round(words: &[u32]) -> Round
    ensures { result ≡ round_in words.now }
{
    Round::of(
        dev(words, 15),
        bit(words, 17),
        bit(words, 18),
        word(words, 19),
    )
}

/// The counts as data.
fn tally(words: &[u32]) -> Tally
    ensures { rule_counts result ≡ counts_in words.now }
{
    Tally {
        irq_count: word(words, 20),
        irqs_unhandled: word(words, 21),
        threads_handled: word(words, 22),
        deferred: bit(words, 23),
        last: 0,
        last_unhandled: word(words, 24),
    }
}

/// The counts.
fn counts(def: &LineDef, words: &[u32]) -> Counts
    requires counted { word_at words.now 20 < def.now.window }
    requires unhandled { word_at words.now 21 ≤ word_at words.now 20 }
    ensures { result ≡ record {
      window = def.now.window;
      limit = def.now.limit;
      counts = counts_in words.now;
    } }
{
    Counts::of_tally(def.window, def.limit, tally(words))
}

/// Who makes a free, by what kind of actor it is, and by its number.
fn actor(who: u32, number: u32) -> Actor
    ensures { result ≡ actor_in who number }
{
    match who {
        1 => Actor::Driver(DriverNo(number)),
        2 => Actor::Cpu(CpuNo(number)),
        _ => Actor::Thread(DevNo(number)),
    }
}

/// Who frees which device.
fn freeing(words: &[u32]) -> Option<(Actor, DevNo)>
    ensures { result ≡ freeing_in words.now }
{
    let who = word(words, 25);
    if who == 0 {
        None
    } else {
        Some((actor(who, word(words, 26)), DevNo(word(words, 27))))
    }
}

/// Puts these parts in place of the state's.
pub(crate) fn put_parts(state: &mut LineState<Cell>, def: &LineDef, words: &[u32])
    requires few { def.now.cpus ≤ 32 }
    requires some { IsSome (lowest_in def.now.cpus (word_at words.now 12)) }
    requires waits { HasProcessor def.now.cpus (mask_at words.now 13) }
    requires counted { word_at words.now 20 < def.now.window }
    requires unhandled { word_at words.now 21 ≤ word_at words.now 20 }
    ensures state { state.new.state ≡ with_fixed def.now words.now state.old.state }
    ensures runs { AreSameRuns state.old state.new }
{
    state.put_desc(desc(def, words));
    state.put_chip(cell(def, words));
    state.put_aim(aim(def, words));
    state.put_round(round(words));
    state.put_counts(counts(def, words));
    state.put_freeing(freeing(words));
}

/// The numbers of these marks.
fn marks_words(desc: DescMarks, stored: bool, sent: bool, high: bool) -> [u32; 12]
    ensures { result ≡ marks_words desc stored sent high [] }
{
    [
        desc.depth,
        flag(desc.started),
        flag(desc.masked),
        flag(desc.pending),
        flag(desc.oneshot),
        flag(desc.spurious),
        flag(desc.soft),
        flag(desc.flow.is_some()),
        number_of(desc.flow),
        flag(stored),
        flag(sent),
        flag(high),
    ]
}

/// The numbers of the descriptor and of the chip.
pub(crate) fn desc_words(state: &LineState<Cell>) -> [u32; 12]
    ensures { result ≡ desc_words (canon state.now.state) [] }
{
    let cell = state.chip().marks();
    marks_words(state.desc().marks(), cell.stored, cell.sent, cell.high)
}

/// The numbers of the affinity, of the round and of the counts.
pub(crate) fn round_words(state: &LineState<Cell>) -> [u32; 13]
    ensures { result ≡ round_words (canon state.now.state) [] }
{
    let flow = state.in_flow().is_some();
    let aim = state.aim();
    let round = state.round();
    let tally = state.counts().tally();
    [
        aim.mask(),
        flag(aim.waiting().is_some()),
        mask_number(aim.waiting()),
        flag(round.working().is_some()),
        dev_number(round.working()),
        flag(flow && round.wakes()),
        flag(flow && round.handles()),
        round.moment(),
        tally.irq_count,
        tally.irqs_unhandled,
        flag(tally.threads_handled != tally.last),
        flag(tally.deferred),
        tally.last_unhandled,
    ]
}

/// What kind of actor it is, and its number.
fn actor_words(actor: Actor) -> (u32, u32)
    ensures { result ≡ (actor_word actor, actor_number actor) }
{
    match actor {
        Actor::Driver(driver) => (1, driver.0),
        Actor::Cpu(cpu) => (2, cpu.0),
        Actor::Thread(dev) => (3, dev.0),
    }
}

/// The numbers of a free under way.
pub(crate) fn freeing_words(state: &LineState<Cell>) -> [u32; 3]
    ensures { result ≡ freeing_words (canon state.now.state).freeing [] }
{
    match state.freeing() {
        Some((actor, dev)) => {
            let (who, number) = actor_words(actor);
            [who, number, dev.0]
        }
        None => [0, 0, 0],
    }
}
