//! The line beside the plain line.
use anyhow::{Result, ensure};
use irq_base::LineDef;
use line_core::MakesCellLine;
use line_orders::{Orders, compare};
use line_valid::is_valid;
use plain_line::MakesPlainLine;
use std::alloc::Global;
use std::fmt;

/// The most moves that are made for one script.
const MOST_MOVES: u32 = 200_000;

/// The most orders that were counted by hand.
const MOST_COUNTED: u32 = 31;

/// The result for a script's orders.
#[derive(Drop)]
pub struct Told(Orders);

/// Goes through the orders of the definition's script.
pub fn orders_of(alloc: Global, def: &LineDef) -> Result<Told> {
    ensure!(is_valid(def), "no line has this definition");
    let orders = compare(alloc, &MakesCellLine, &MakesPlainLine, def, MOST_MOVES)?;
    Ok(Told(orders))
}

impl fmt::Display for Told {
    fn fmt<W: fmt::Write>(&self, f: &mut fmt::Formatter<W>) -> fmt::Result {
        match self.0 {
            Orders::Same { count } if count <= MOST_COUNTED => write!(f, "same orders {count}"),
            Orders::Same { .. } => write!(f, "same"),
            Orders::Differ => write!(f, "differ"),
            Orders::TooMany => write!(f, "too many orders"),
        }
    }
}
