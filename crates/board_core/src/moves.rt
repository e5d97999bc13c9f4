//! A walk over the log of a system.
ghost use Rattle.std.specs.Prelude.{◌≡◌, ◌<◌, ◌≤◌, ◌^◌, IfSome, MatchOption, None, drop, length};
ghost use Rattle.std.specs.Prelude.{map, slice_get};
ghost use Rattle.board_core.specs.Log.{IsWalk, StandsAt, moves_of};
ghost use Rattle.board_core.specs.Placing.{AreLengths};

use irq_base::{Entry, History, LineNo};
use irq_line::IrqLine;
use std::marker::Model;

/// How many lines a board has at most.
pub(crate) const LINES: usize = 64;

/// Where a move stands: its line's number and history, and the index of its entry there, counted
/// from 0.
#[derive(Clone, Copy)]
pub struct MovePlace<'s> {
    pub line: LineNo,
    pub history: &'s History,
    pub place: usize,
}

/// The moves of a log, the oldest first. Contracts see the list of the moves that are left. It
/// lends values alone, and takes no memory.
#[derive(Drop)]
pub struct Moves<'s, L: IrqLine> {
    lines: &'s [L],
    order: &'s [u16],
    at: usize,
    cursors: [u32; LINES],
}

impl<'s, L: IrqLine> Model for Moves<'s, L> {
    ghost use Rattle.std.specs.Prelude.{List, drop, map};
    ghost use Rattle.board_play.specs.Lines.{Move};
    ghost use Rattle.board_core.specs.Log.{IsWalk, moves_of};

    ghost Value = { List Move };

    ghost view = { λ w. moves_of (drop w.at w.order.now) (map L.seen w.lines.now) };

    ghost invariant = { λ w. IsWalk w.cursors (drop w.at w.order.now) (map L.seen w.lines.now) };
}

impl<'s, L: IrqLine> Moves<'s, L> {
    /// The walk over the lines in that order, from the entries at the cursors on.
    pub(crate) fn new(lines: &'s [L], order: &'s [u16], cursors: [u32; LINES]) -> Moves<'s, L>
        requires { IsWalk cursors order.now (map L.seen lines.now) }
        ensures { result ≡ moves_of order.now (map L.seen lines.now) }
    {
        Moves {
            lines,
            order,
            at: 0,
            cursors,
        }
    }

    /// Where the next move stands, if one is left: nothing is read of its entry. It takes the same
    /// time however many there are.
    pub fn next_place(&mut self) -> Option<MovePlace<'s>>
        ensures first { MatchOption result (slice_get self.old 0 ≡ None)
            (λ at. StandsAt at.line at.history.now.entries at.place (slice_get self.old 0)) }
        ensures rest { self.new ≡ drop 1 self.old }
    {
        let Some(k) = place_at(self.order, self.at) else {
            return None;
        };
        let cursor = self.cursors[k];
        let next = move_place(self.lines, k, cursor);
        self.at += 1;
        self.cursors[k] = cursor + 1;
        Some(next)
    }

    /// The next move, if one is left: its line and its entry. It takes the same time however many
    /// there are.
    pub fn next(&mut self) -> Option<(LineNo, Entry)>
        ensures first { result ≡ slice_get self.old 0 }
        ensures rest { self.new ≡ drop 1 self.old }
    {
        let at = self.next_place()?;
        let entry = at.history.get(at.place)?;
        Some((at.line, entry))
    }
}

/// How many entries each of the lines has.
pub(crate) fn lengths_of<L: IrqLine>(lines: &[L]) -> [u32; LINES]
    requires { length lines.now ≤ 64 }
    ensures { AreLengths (map L.seen lines.now) result }
{
    let mut lengths = [0; LINES];
    for k in 0..lines.len() {
        lengths[k] = length_of(&lines[k]);
    }
    lengths
}

/// How many entries the line has.
fn length_of<L: IrqLine>(line: &L) -> u32
    ensures { result ≡ length (L.seen line.now).entries }
{
    line.is_sound();
    line.history().len() as u32
}

/// The place of a line that stands at index `at` of the order.
fn place_at(order: &[u16], at: usize) -> Option<usize>
    ensures place { result ≡ slice_get order.now at }
    ensures small { IfSome result (λ k. (k < 65536) × (at < 2 ^ 63)) }
{
    match order.get(at) {
        Some(place) => Some(*place as usize),
        None => None,
    }
}

/// Where the entry at index `cursor` of the history of the line at `place` stands.
fn move_place<L: IrqLine>(lines: &[L], place: usize, cursor: u32) -> MovePlace<'_>
    requires within { place < length lines.now }
    requires short { IfSome (slice_get (map L.seen lines.now) place)
        (λ x. cursor < length x.entries) }
    ensures line { IfSome (slice_get (map L.seen lines.now) place)
        (λ x. (result.line ≡ x.def.line) × (result.history.now.entries ≡ x.entries)) }
    ensures place { result.place ≡ cursor }
    ensures few { cursor < 100000000 }
{
    let line = &lines[place];
    line.is_sound();
    MovePlace {
        line: line.definition().line,
        history: line.history(),
        place: cursor as usize,
    }
}
