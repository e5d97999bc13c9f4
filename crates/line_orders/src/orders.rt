//! The orders.
use crate::actors::actors_of;
use crate::pairs::{Both, Pair};
use irq_base::{Actor, LineDef, NoMemory};
use irq_line::{IrqLine, MakesLine};
use std::alloc::Global;

/// The result of going through the orders.
#[derive(Clone, Copy, PartialEq, Eq)]
pub enum Orders {
    /// The lines tell the same in all orders. `count`: how many orders there are.
    Same { count: u32 },
    /// The lines differ in some order.
    Differ,
    /// There are more orders than were to be gone through.
    TooMany,
}

/// What asking the actors in turn found.
#[derive(Clone, Copy)]
enum Turn {
    /// The actor at this index is the first that can move, and it moved.
    Moved(usize),
    /// No actor can move.
    Rested,
    Differ,
}

/// Whether the two lines of the definition tell the same in every order in which its actors can
/// move, of at most `most` moves together.
///
/// # Errors
///
/// `NoMemory` if memory was needed and refused, and nothing else.
pub fn compare<L: IrqLine, M: IrqLine, A: MakesLine<L>, B: MakesLine<M>>(
    alloc: Global,
    lines: &A,
    others: &B,
    def: &LineDef,
    most: u32,
) -> Result<Orders, NoMemory>
    requires lines { A.makes lines.now 1 def.now }
    requires others { B.makes others.now 1 def.now }
{
    let actors = actors_of(alloc, def)?;
    let mut moves: Vec<usize> = Vec::new(alloc);
    let mut pair: Pair<L, M> = pair_after(alloc, lines, others, def, &actors, &moves)?;
    let mut from = 0;
    let mut count: u32 = 0;
    for _ in 0..most {
        match next_turn(&mut pair, &actors, from)? {
            Turn::Moved(place) => {
                moves.push(place)?;
                from = 0;
            }
            Turn::Rested => {
                if from == 0 {
                    count = count.saturating_add(1);
                }
                let Some(place) = moves.pop() else {
                    return Ok(Orders::Same { count });
                };
                pair = pair_after(alloc, lines, others, def, &actors, &moves)?;
                from = place.saturating_add(1);
            }
            Turn::Differ => return Ok(Orders::Differ),
        }
    }
    Ok(Orders::TooMany)
}

/// Two new lines after these moves, each given by its actor's index.
fn pair_after<L: IrqLine, M: IrqLine, A: MakesLine<L>, B: MakesLine<M>>(
    alloc: Global,
    lines: &A,
    others: &B,
    def: &LineDef,
    actors: &[Actor],
    moves: &[usize],
) -> Result<Pair<L, M>, NoMemory>
    requires lines { A.makes lines.now 1 def.now }
    requires others { B.makes others.now 1 def.now }
{
    let mut pair = Pair {
        line: lines.make(alloc, 1, def)?,
        other: others.make(alloc, 1, def)?,
    };
    for place in moves {
        if let Some(actor) = actors.get(*place) {
            let _ = pair.step(*actor)?;
        }
    }
    Ok(pair)
}

/// Asks the actors from index `from` on; if none can move, it asks whether the histories are the
/// same.
fn next_turn<L: IrqLine, M: IrqLine>(
    pair: &mut Pair<L, M>,
    actors: &[Actor],
    from: usize,
) -> Result<Turn, NoMemory> {
    for place in from..actors.len() {
        match pair.step(actors[place])? {
            Both::Moved => return Ok(Turn::Moved(place)),
            Both::Rested => {}
            Both::Differ => return Ok(Turn::Differ),
        }
    }
    if pair.kept_same() {
        Ok(Turn::Rested)
    } else {
        Ok(Turn::Differ)
    }
}
