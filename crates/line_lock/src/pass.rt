//! A pass.
ghost use Rattle.std.specs.Prelude.{◌≡◌, length};
ghost use Rattle.line_lock.specs.Knows.{IsKnown};

use crate::kept::Kept;
use crate::steps::Seated;
use irq_base::Actor;
use std::marker::Model;

/// What a thread needs to take the value out of a lock. Contracts see what it knows (`Known`): how
/// the history was when it last looked, and where its own entries stand in it. It can be neither
/// copied nor cloned; when it is dropped, its actor is lost.
///
/// A first pass has no actor: it gives passes to actors, and meets them again. The actors of two
/// passes differ.
#[derive(Drop)]
pub struct Pass<T: Kept> {
    pub(crate) seat: Seated<T>,
    pub(crate) actor: Option<Actor>,
    pub(crate) front: u64,
    /// While it has the turn: how many entries the value had.
    pub(crate) held: usize,
}

impl<T: Kept> Model for Pass<T> {
    ghost use Rattle.line_lock.specs.Passes.{PassSeen, IsPass};

    ghost Value = { PassSeen };

    ghost view = { λ p. record {
      table = p.seat.table_id;
      def = p.seat.me.0.def;
      knows = p.seat.me.0.knows;
      turn = p.seat.me.0.turn;
      held = p.seat.me.0.held;
    } };

    ghost invariant = { λ p. IsPass p.seat.me p.actor p.front p.held };
}

impl<T: Kept> Pass<T> {
    /// Its actor; none for a first pass.
    pub fn actor(&self) -> Option<Actor>
        ensures { result ≡ self.now.knows.actor }
    {
        self.actor
    }

    /// How many entries it has seen.
    pub fn front(&self) -> u64
        ensures { result ≡ length self.now.knows.seen }
    {
        self.front
    }

    /// What holds of every pass at every moment: its own entries are exactly the entries of its
    /// actor in what it has seen.
    pub fn is_known(&self)
        ensures { IsKnown self.now.knows }
    {
        let _front = self.front;
    }
}
