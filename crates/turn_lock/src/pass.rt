//! A pass: the right of one process to take turns.

ghost use Rattle.std.specs.Prelude.{◌≡◌, length};

use crate::chronicle::Chronicle;
use crate::known::Known;
use atomic_table::Seat;
use std::marker::Model;

/// The right to take turns at a lock, for one process. It is made by the lock alone, has no `Clone`, and is lent for
/// each call, so that no two calls use it at once.
#[derive(Drop)]
pub struct Pass<V: Chronicle> {
    pub(crate) seat: Seat<Option<V>, Known<V::Item, V::Subject>>,
    pub(crate) pid: u32,
    pub(crate) live: u32,
    pub(crate) tickets: u64,
    pub(crate) front: u64,
}

impl<V: Chronicle> Model for Pass<V> {
    ghost use Rattle.atomic_table.specs.declared.shared.Seat.{Seat};
    ghost use Rattle.std.specs.Prelude.{◌≡◌, ◌<◌, length, Option};
    ghost use Rattle.turn_lock.specs.declared.known.Known.{Known};

    ghost Value = { Seat (Option V) (Known V.Item V.Subject) };

    ghost view = { λ p. p.seat };

    ghost invariant = { λ p. (p.tickets ≡ p.seat.me.0.drawn) × (p.front ≡ length p.seat.me.0.seen) × (0 < p.pid) × (p.pid ≡ p.seat.me.0.pid)
        × (p.live ≡ p.seat.me.0.live) };
}

impl<V: Chronicle> Pass<V> {
    /// The number of its process, from 1 to 16.
    pub fn pid(&self) -> u32
        ensures { result ≡ self.now.me.0.pid }
    {
        self.pid
    }

    /// How many passes of the lock are not joined, as the first one knows it.
    pub fn live(&self) -> u32
        ensures { result ≡ self.now.me.0.live }
    {
        self.live
    }

    /// How many tickets it drew, which is how many turns it asked for.
    pub fn tickets(&self) -> u64
        ensures { result ≡ self.now.me.0.drawn }
    {
        self.tickets
    }

    /// How much of the history it has seen, in items.
    pub fn front(&self) -> u64
        ensures { result ≡ length self.now.me.0.seen }
    {
        self.front
    }
}
