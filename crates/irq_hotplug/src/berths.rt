//! The lines that take part, and where each is.
ghost use Rattle.std.specs.Prelude.{◌≡◌, ◌≤◌, ◌&&◌, not, All, Some, None, is_some, length};
ghost use Rattle.irq_hotplug.specs.Berths.{is_moved, is_on, left_out, place_of, place_on, settled};
ghost use Rattle.irq_hotplug.specs.Kept.{HasQueue};

use crate::rooms::at;
use irq_base::{CpuNo, LineNo};
use vector_matrix::Vector;

/// A line that takes part.
#[derive(Clone, Copy)]
pub struct Berth {
    /// The line.
    pub line: LineNo,
    /// The board's mask of it.
    pub mask: u32,
    /// How many queues it has: a device is a queue, and there is at least one.
    pub queues: u32,
    /// The processor that takes its interrupts, by the board's mask or the last move.
    pub target: Option<CpuNo>,
    /// Its vector; none if no processor had one left.
    pub place: Option<Vector>,
}

/// Where a line is.
#[derive(Clone, Copy, PartialEq, Eq)]
pub struct Place {
    /// The processor.
    pub cpu: CpuNo,
    /// The number of the line's vector there, below the vectors of a processor.
    pub vector: u32,
    /// The line's queue that is served there, below its queues.
    pub queue: u32,
}

/// Which lines are placed anew.
#[derive(Clone, Copy)]
pub enum Moving {
    /// Each, at first.
    All,
    /// Those on this processor, as it goes offline.
    From(CpuNo),
}

impl Moving {
    /// Whether the line is placed anew.
    pub fn is_moved(self, berth: &Berth) -> bool
        ensures { result ≡ is_moved self berth.now }
    {
        match self {
            Moving::All => true,
            Moving::From(cpu) => is_on(cpu, berth.place),
        }
    }
}

/// The vector is one of the processor's.
fn is_on(cpu: CpuNo, place: Option<Vector>) -> bool
    ensures { result ≡ is_on cpu place }
{
    match place {
        Some(vector) => vector.cpu == cpu,
        None => false,
    }
}

/// Whether the line is placed anew and found no vector.
fn is_left_out(moving: Moving, berth: &Berth, found: Option<Vector>) -> bool
    ensures { result ≡ (is_moved moving berth.now && not (is_some found)) }
{
    moving.is_moved(berth) && found.is_none()
}

/// The first line that is placed anew and found no vector.
pub fn left_out(moving: Moving, berths: &[Berth], found: &[Option<Vector>]) -> Option<LineNo>
    requires { length found.now ≡ length berths.now }
    ensures { result ≡ left_out moving berths.now found.now }
{
    for i in 0..berths.len() {
        let berth = at(berths, i);
        let vector = at(found, i);
        if is_left_out(moving, &berth, vector) {
            return Some(berth.line);
        }
    }
    None
}

/// The line with the vector that it found; as it was if it found none.
pub fn settled(found: Option<Vector>, berth: Berth) -> Berth
    ensures { result ≡ settled found berth }
{
    match found {
        Some(vector) => Berth {
            target: Some(vector.cpu),
            place: Some(vector),
            ..berth
        },
        None => berth,
    }
}

/// Where the line is with this vector.
fn place_on(berth: &Berth, place: Option<Vector>) -> Option<Place>
    requires { 1 ≤ berth.now.queues }
    ensures { result ≡ place_on berth.now place }
{
    match place {
        Some(vector) => Some(Place {
            cpu: vector.cpu,
            vector: vector.number,
            queue: vector.cpu.0 % berth.queues,
        }),
        None => None,
    }
}

/// Where the line with this number is; none if it has no vector, or takes no part.
pub fn place_of(berths: &[Berth], line: LineNo) -> Option<Place>
    requires { All HasQueue berths.now }
    ensures { result ≡ place_of berths.now line }
{
    for i in 0..berths.len() {
        let berth = at(berths, i);
        if berth.line == line {
            return place_on(&berth, berth.place);
        }
    }
    None
}
