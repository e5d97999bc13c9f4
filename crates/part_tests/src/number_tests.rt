//! From 1 to 10 by doubling and adding one. By hand, in the order of the search:
//!
//! | place | number | length | comes from, by |
//! |---|---|---|---|
//! | 0 | 1 | 0 | |
//! | 1 | 2 | 1 | 1, doubled |
//! | 2, 3 | 4, 3 | 2 | 2, doubled and raised |
//! | 4, 5 | 8, 5 | 3 | 4 |
//! | 6 | 6 | 3 | 3, doubled |
//! | 7 | 9 | 4 | 8, raised |
//! | 8 | 10 | 4 | 5, doubled |
//! | 9 | 7 | 4 | 6, raised |
ghost use Rattle.std.specs.Prelude.{◌≤◌};

use crate::numbers::{Numbers, Step};
use irq_base::NoMemory;
use state_search::{Searched, Sought, search};
use std::alloc::Global;

/// The numbers in the order of the search, and the lengths of their paths.
const ORDER: [(u32, usize); 10] = [
    (1, 0),
    (2, 1),
    (4, 2),
    (3, 2),
    (8, 3),
    (5, 3),
    (6, 3),
    (9, 4),
    (10, 4),
    (7, 4),
];

/// A search through the first ten numbers, or as many as are asked for, for one that is wanted.
fn sought(alloc: Global, wanted: u16, most: usize) -> Result<Sought<Step>, NoMemory>
    requires some { 1 ≤ most }
    requires most { most ≤ 100000000 }
{
    let mut space = Numbers { limit: 10, wanted };
    search(alloc, &mut space, most)
}

/// The same, and none is wanted.
fn searched(alloc: Global, most: usize) -> Result<Searched<Step>, NoMemory>
    requires some { 1 ≤ most }
    requires most { most ≤ 100000000 }
{
    Ok(sought(alloc, 0, most)?.found)
}

/// Whether the number stands at index `place`, with a path of this length.
fn stands(
    alloc: Global,
    found: &Searched<Step>,
    place: usize,
    number: u32,
    length: usize,
) -> Result<bool, NoMemory> {
    if place >= found.len() {
        return Ok(false);
    }
    let Some(words) = found.state(alloc, place)? else {
        return Ok(false);
    };
    Ok(words.as_slice() == [number].as_slice() && found.depth(place) == length)
}

/// Whether the search found `len` states, looked at `looked` of them, and was cut at `cut`.
fn ends(found: &Searched<Step>, len: usize, looked: usize, cut: Option<usize>) -> bool {
    found.len() == len && found.looked() == looked && found.cut() == cut
}

#[test]
fn numbers_in_order(rt: HostRuntime) -> Result<(), NoMemory> {
    let found = searched(rt.alloc(), 10)?;
    for (place, row) in ORDER.iter().enumerate() {
        assert!(rt; stands(rt.alloc(), &found, place, row.0, row.1)?);
    }
    assert!(rt; found.state(rt.alloc(), 10)?.is_none());
    Ok(())
}

#[test]
fn path_to_ten(rt: HostRuntime) -> Result<(), NoMemory> {
    let found = searched(rt.alloc(), 10)?;
    assert!(rt; 8 < found.len());
    let path = found.path(rt.alloc(), 8)?;
    let by_hand = [Step::Double, Step::Double, Step::AddOne, Step::Double];
    assert!(rt; path.as_slice() == by_hand.as_slice());
    Ok(())
}

/// With one state nothing is known but 1; with six 3 can't be looked at whole, since 6 comes after
/// it; with nine 6 can't, since 7 does.
#[test]
fn cuts(rt: HostRuntime) -> Result<(), NoMemory> {
    assert!(rt; ends(&searched(rt.alloc(), 1)?, 1, 0, Some(0)));
    assert!(rt; ends(&searched(rt.alloc(), 6)?, 6, 3, Some(2)));
    assert!(rt; ends(&searched(rt.alloc(), 9)?, 9, 6, Some(3)));
    assert!(rt; ends(&searched(rt.alloc(), 10)?, 10, 10, None));
    Ok(())
}

#[test]
fn labels(rt: HostRuntime) -> Result<(), NoMemory> {
    let found = searched(rt.alloc(), 10)?;
    assert!(rt; found.firsts().len() == 2);
    assert!(rt; found.first(Step::Double) == Some(0));
    assert!(rt; found.first(Step::AddOne) == Some(0));
    Ok(())
}

/// Nothing comes after 1 up to 1, and no label is met.
#[test]
fn one_number(rt: HostRuntime) -> Result<(), NoMemory> {
    let mut space = Numbers {
        limit: 1,
        wanted: 0,
    };
    let found = search(rt.alloc(), &mut space, 1)?.found;
    assert!(rt; ends(&found, 1, 1, None));
    assert!(rt; found.first(Step::AddOne).is_none());
    Ok(())
}

/// 5 stands at place 5: the five before it were looked at, and what comes after these is there. One
/// that isn't met is sought to the end, or to the cut.
#[test]
fn wanted_numbers(rt: HostRuntime) -> Result<(), NoMemory> {
    let five = sought(rt.alloc(), 5, 10)?;
    assert!(rt; five.is_met && ends(&five.found, 8, 5, Some(3)));
    assert!(rt; stands(rt.alloc(), &five.found, 5, 5, 3)?);
    let one = sought(rt.alloc(), 1, 10)?;
    assert!(rt; one.is_met && ends(&one.found, 1, 0, Some(0)));
    let eleven = sought(rt.alloc(), 11, 10)?;
    assert!(rt; !eleven.is_met && ends(&eleven.found, 10, 10, None));
    let seven = sought(rt.alloc(), 7, 6)?;
    assert!(rt; !seven.is_met && ends(&seven.found, 6, 3, Some(2)));
    Ok(())
}
