//! The rows that say the verdict on a log, and why it is unlawful.
ghost use Rattle.std.specs.Prelude.{◌≡◌, ◌+◌, ◌∷◌, ◌++◌, ◌≤◌, length, [], codes, decimal};
ghost use Rattle.irq_check.specs.AnswerText.{answer_text, obstacle_text, verdict_text, why_text};
ghost use Rattle.irq_check.specs.Checked.{IsPrintableAnswer};
ghost use Rattle.log_check.specs.Why.{IsPrintableDue};
ghost use Rattle.log_text.specs.EntryWords.{actor_word};

use irq_base::{Actor, LineNo};
use line_obstacles::Obstacle;
use log_check::{DueThen, Undue, Verdict};
use log_text::entry_row;
use text_row::TextRow;

/// What is answered of an input.
#[derive(Clone, Copy)]
pub struct Judgement {
    /// The verdict on the log.
    pub verdict: Verdict,
    /// Why it is unlawful, if that was asked and it is.
    pub why: Option<Undue>,
}

/// Writes the rows that say the answer. What the row held before is gone.
pub fn answer_row(row: &mut TextRow, answer: Judgement)
    requires { IsPrintableAnswer answer }
    ensures { row.new ≡ answer_text answer }
{
    verdict_row(row, answer.verdict);
    if let (Verdict::Unlawful { line, .. }, Some(undue)) = (answer.verdict, answer.why) {
        push_why(row, line, undue);
    }
}

/// Writes the row that says the verdict. What the row held before is gone.
fn verdict_row(row: &mut TextRow, verdict: Verdict)
    ensures text { row.new ≡ verdict_text verdict }
    ensures short { length row.new ≤ 40 }
{
    row.clear();
    match verdict {
        Verdict::Lawful => row.push_bytes(b"lawful\n"),
        Verdict::Unlawful { line, entry } => {
            row.push_bytes(b"unlawful ");
            row.push_number(line.0);
            row.push(b' ');
            row.push_number(entry);
            row.push(b'\n');
        }
        Verdict::Malformed { row: number } => {
            row.push_bytes(b"malformed ");
            row.push_number(number);
            row.push(b'\n');
        }
    }
}

/// Adds the two rows that say why the line's history isn't legal.
fn push_why(row: &mut TextRow, line: LineNo, undue: Undue)
    requires short { length row.old ≤ 40 }
    requires printable { IsPrintableDue undue.due }
    ensures { row.new ≡ row.old ++ why_text line undue }
{
    row.push_bytes(b"row ");
    row.push_number(undue.row);
    row.push_bytes(b"\ndue ");
    match undue.due {
        DueThen::Entry(entry) => {
            let mut due = TextRow::new();
            entry_row(&mut due, line, &entry);
            row.push_bytes(due.bytes());
        }
        DueThen::Nothing(None) => row.push_bytes(b"nothing\n"),
        DueThen::Nothing(Some(obstacle)) => {
            row.push_bytes(b"nothing: ");
            push_obstacle(row, obstacle);
            row.push(b'\n');
        }
    }
}

/// Adds what stood in an actor's way.
fn push_obstacle(row: &mut TextRow, obstacle: Obstacle)
    requires { length row.old ≤ 100 }
    ensures text { row.new ≡ row.old ++ obstacle_text obstacle }
    ensures short { length row.new ≤ length row.old + 40 }
{
    match obstacle {
        Obstacle::Flow(cpu) => {
            row.push_bytes(b"the flow of c");
            row.push_number(cpu.0);
        }
        Obstacle::Thread(dev) => {
            row.push_bytes(b"the thread of ");
            row.push_number(dev.0);
        }
        Obstacle::Mutex(holder) => {
            row.push_bytes(b"the mutex of ");
            push_actor(row, holder);
        }
        Obstacle::Masked => row.push_bytes(b"masked"),
        Obstacle::NoSignal => row.push_bytes(b"no signal"),
        Obstacle::Target(cpu) => {
            row.push_bytes(b"the target is c");
            row.push_number(cpu.0);
        }
    }
}

/// Adds the actor, a letter and the number right behind it.
fn push_actor(row: &mut TextRow, actor: Actor)
    requires { length row.old ≤ 120 }
    ensures text { row.new ≡ row.old ++ actor_word actor }
    ensures short { length row.new ≤ length row.old + 12 }
{
    match actor {
        Actor::Cpu(cpu) => push_lettered(row, b'c', cpu.0),
        Actor::Thread(dev) => push_lettered(row, b't', dev.0),
        Actor::Driver(driver) => push_lettered(row, b'd', driver.0),
    }
}

fn push_lettered(row: &mut TextRow, letter: u8, number: u32)
    requires { length row.old ≤ 120 }
    ensures text { row.new ≡ row.old ++ letter ∷ decimal number }
    ensures short { length row.new ≤ length row.old + 12 }
{
    row.push(letter);
    row.push_number(number);
}
