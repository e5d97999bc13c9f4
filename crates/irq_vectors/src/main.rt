//! Judges logs of single lines twice, by the reference program (`plain_next`) and by a line; and
//! compares the line with the plain line in every order of a script.
//!
//! Standard input has the name of a file in each row. A file has the text of a board of one line, a
//! row `---`, and the line's log.
//!
//! For each file, standard output gets a row with the name and the verdict: `lawful`, or `unlawful
//! N`, where entry N, counted from 1, is the first that isn't due. Where the line gives another
//! verdict than the reference program, or no line can be made, the program says so and ends. For a
//! row `orders` and a name, it gets the name and whether the two lines are the same in every order.
#![tactic(auto)]

mod by_line;
mod judging;
mod reading;
mod side_by_side;

use anyhow::{Context, Result, ensure};
use by_line::judge_by_line;
use judging::{Verdict, judge};
use line_valid::is_valid;
use reading::{LineLog, read_line_log};
use side_by_side::orders_of;
use std::alloc::Global;
use std::fs;
use std::rt::Files;

/// The verdict on the log, on which the reference program and the line agree.
fn judge_log(alloc: Global, log: &LineLog) -> Result<Verdict> {
    ensure!(is_valid(&log.def), "no line has this definition");
    ensure!(
        log.entries.len() <= log.def.log as usize,
        "more entries than the line logs"
    );
    let verdict = judge(alloc, &log.def, &log.entries)?;
    let told = judge_by_line(alloc, &log.def, &log.entries)?;
    ensure!(
        told == verdict,
        "the line tells {told}, the plain program {verdict}"
    );
    Ok(verdict)
}

/// The log in the file.
fn read_file(rt: &(impl Files + AllocGlobal), name: &str) -> Result<LineLog> {
    let text = fs::read_to_string(rt, name).context(format_args!("reading {name}"))?;
    read_line_log(rt.alloc(), text.as_str()).context(format_args!("in {name}"))
}

fn main(rt: HostRuntime) -> Result<()> {
    for row in rt.lines(rt.alloc()) {
        let row = row?;
        match row.strip_prefix("orders ") {
            Some(name) => {
                let log = read_file(&rt, name)?;
                let orders = orders_of(rt.alloc(), &log.def).context(format_args!("in {name}"))?;
                println!(rt; "{name} {orders}")?;
            }
            None => {
                let log = read_file(&rt, row.as_str())?;
                let verdict = judge_log(rt.alloc(), &log).context(format_args!("in {row}"))?;
                println!(rt; "{row} {verdict}")?;
            }
        }
    }
    Ok(())
}
