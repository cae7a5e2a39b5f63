//! The rule of the lock's table, and what each step on it tells the pass that makes it.

ghost use Rattle.turn_lock.specs.Turns.{Turned, newcomer, DrewIf, Looked, GaveBack, dealing, dealt, joining, spent, Told};

use crate::chronicle::Chronicle;
use crate::known::Known;
use atomic_table::{Join, Play, Split, TableRule};
use std::marker::PhantomData;
use std::snapshot::Snapshot;

/// The rule: tickets are served one after the other, and the value goes with the ticket that is served.
pub struct Turns<V> {
    of: PhantomData<V>,
}

impl<V: Chronicle> TableRule<Option<V>, Known<V::Item, V::Subject>, Snapshot<V>> for Turns<V> {
    ghost holds = { λ _. Turned V.history V.by V.subject };

    ghost first = { λ key. newcomer (V.subject key.value) };
}

/// A ticket is drawn, where the next one is the one that was expected.
pub struct Draw;

impl<V: Chronicle> Play<Option<V>, Known<V::Item, V::Subject>> for Draw {
    ghost then = { DrewIf };
}

/// A look at the ticket that is served: where it is the own one, the turn has come.
pub struct Look;

impl<V: Chronicle> Play<Option<V>, Known<V::Item, V::Subject>> for Look {
    ghost then = { Looked V.history V.by V.subject };
}

/// The end of a turn: the next ticket is served.
pub struct GiveBack;

impl<V: Chronicle> Play<Option<V>, Known<V::Item, V::Subject>> for GiveBack {
    ghost then = { GaveBack V.history V.by };
}

/// A look that changes nothing, and tells what the two passes of the last join had seen.
pub struct Tell;

impl<V: Chronicle> Play<Option<V>, Known<V::Item, V::Subject>> for Tell {
    ghost then = { Told };
}

/// The next pass is split off the first one.
pub struct Deal;

impl<I, S> Split<Known<I, S>> for Deal {
    ghost left = { dealing };

    ghost right = { dealt };
}

/// The pass with the greatest number is joined into the first one.
pub struct Glue;

impl<I, S> Join<Known<I, S>> for Glue {
    ghost both = { joining };

    ghost spent = { spent };
}
