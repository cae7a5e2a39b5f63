//! The lock: a value that goes from ticket to ticket.

ghost use Rattle.std.specs.Prelude.{◌≡◌, ℕ, ◌+◌, ◌^◌, ◌<◌, ◌∷◌, [], length, Some, false, IfSome, IsSome, IfOk, MatchOption, ◌≤◌};
ghost use mathlib.Core.List.{IsPrefix};
ghost use Rattle.lx_types.specs.declared.limits.TheConstants.{MAX_PROCESSES};
ghost use Rattle.turn_lock.specs.Turns.{by_pid, Adds, drawing, giving, dealing, dealt, joining};
ghost use Rattle.turn_lock.specs.Passes.{Waits, Took, Shown, Idle, HasTurn, Closing, AllDealt, at_start};

use crate::chronicle::Chronicle;
use crate::known::Known;
use crate::moves::{Deal, Draw, GiveBack, Glue, Look, Tell, Turns};
use crate::pass::Pass;
use atomic_table::{Seat, Table};
use bell::Bell;
use lx_types::NoMemory;
use std::alloc::Global;
use std::hint::spin_loop;
use std::marker::Model;
use std::snapshot::Snapshot;
use std::sync::Wait;

/// The word that has the next ticket.
const NEXT: usize = 0;

/// The word that has the ticket that is served.
const SERVING: usize = 1;

/// How many looks a thread takes at whether the lock is free before it sleeps. After each it pauses twice as long as after the one
/// before.
const LOOKS: u32 = 6;

/// How many times a thread pauses after its first look: as long as some ten short turns take. A thread that looks less often lets
/// the one that has had the turn take it again, with the value near at hand.
const PAUSES: u32 = 256;

// Pauses so many times.
fn pause(count: u32) {
    for _ in 0..count {
        spin_loop();
    }
}

/// A lock round a value with a history. Threads take turns at it in the order in which they draw tickets, each by a
/// pass; while a thread has the turn, the value is with it. A thread draws a ticket once it is served at once, so that a turn goes
/// to a thread that runs, and nobody waits for one that sleeps.
#[derive(Drop)]
pub struct TurnLock<V: Chronicle> {
    table: Table<Option<V>, Known<V::Item, V::Subject>, Snapshot<V>, Turns<V>, Global>,
    bell: Bell,
}

impl<V: Chronicle> Model for TurnLock<V> {
    ghost use Rattle.atomic_table.specs.Seated.{TableId};
    ghost use Rattle.std.specs.Prelude.{◌≡◌};

    ghost Value = { TableId };

    ghost view = { λ l. l.table.shared.table_id };

    ghost invariant = { λ l. (l.table.shared.table_id.words ≡ 2) × (l.table.shared.table_id.slots ≡ 1) };
}

impl<V: Chronicle> TurnLock<V> {
    // Draws a ticket where it is the one that is served.
    fn draw_served(&self, seat: &mut Seat<Option<V>, Known<V::Item, V::Subject>>) -> Option<u64>
        requires lock { seat.old.table_id ≡ self.now }
        requires idle { Idle seat.old.me }
        requires few { seat.old.me.0.drawn < 2 ^ 32 }
        ensures lock { (seat.new.table_id ≡ seat.old.table_id) × (seat.new.id ≡ seat.old.id) }
        ensures drew { MatchOption result (seat.new.me ≡ seat.old.me) (λ t. seat.new.me ≡ (drawing t seat.old.me.0, seat.old.me.1)) }
    {
        let served = self.table.shared.peek(SERVING);
        if self.table.shared.peek(NEXT) != served {
            return None;
        }
        let next = served.wrapping_add(1);
        let found = self
            .table
            .shared
            .compare_exchange::<Draw>(seat, NEXT, served, next);
        if found == served { Some(found) } else { None }
    }

    // The same, within a number of looks, with twice the pauses after each of those after the one before. None of them gives the
    // processor away.
    fn draw_soon(&self, seat: &mut Seat<Option<V>, Known<V::Item, V::Subject>>) -> Option<u64>
        requires lock { seat.old.table_id ≡ self.now }
        requires idle { Idle seat.old.me }
        requires few { seat.old.me.0.drawn < 2 ^ 32 }
        ensures lock { (seat.new.table_id ≡ seat.old.table_id) × (seat.new.id ≡ seat.old.id) }
        ensures drew { MatchOption result (seat.new.me ≡ seat.old.me) (λ t. seat.new.me ≡ (drawing t seat.old.me.0, seat.old.me.1)) }
    {
        for look in 0..LOOKS {
            if let Some(ticket) = self.draw_served(seat) {
                return Some(ticket);
            }
            pause(PAUSES << look);
        }
        None
    }

    // The same, once it can: between looks the thread sleeps until a turn ends. It hears the bell before each look but the first
    // ones, also where it was woken: then the end of its own turn wakes the next thread.
    fn draw<R: Wait>(&self, rt: &R, seat: &mut Seat<Option<V>, Known<V::Item, V::Subject>>) -> u64
        requires lock { seat.old.table_id ≡ self.now }
        requires idle { Idle seat.old.me }
        requires few { seat.old.me.0.drawn < 2 ^ 32 }
        ensures lock { (seat.new.table_id ≡ seat.old.table_id) × (seat.new.id ≡ seat.old.id) }
        ensures drew { seat.new.me ≡ (drawing result seat.old.me.0, seat.old.me.1) }
    {
        if let Some(ticket) = self.draw_soon(seat) {
            return ticket;
        }
        for _ in rt.forever() {
            let heard = self.bell.heard();
            if let Some(ticket) = self.draw_soon(seat) {
                return ticket;
            }
            self.bell.sleep(rt, heard);
        }
        unreachable!()
    }

    // Waits until the ticket is served, which it is where it was drawn when served.
    fn wait<R: Wait>(
        &self,
        rt: &R,
        seat: &mut Seat<Option<V>, Known<V::Item, V::Subject>>,
        ticket: u64,
    )
        requires lock { seat.old.table_id ≡ self.now }
        requires waits { Waits seat.old.me ticket × (0 < seat.old.me.0.pid) }
        ensures lock { (seat.new.table_id ≡ seat.old.table_id) × (seat.new.id ≡ seat.old.id) }
        ensures shown { Shown V.history V.by V.subject seat.old.me.0 seat.new.me }
    {
        for _ in rt.forever() {
            let now = self.table.shared.load::<Look>(seat, SERVING);
            if now == ticket {
                return;
            }
            spin_loop();
        }
        unreachable!()
    }

    // Draws a ticket, waits for its turn and takes the value out of its slot.
    fn take<R: Wait>(&self, rt: &R, seat: &mut Seat<Option<V>, Known<V::Item, V::Subject>>) -> V
        requires lock { seat.old.table_id ≡ self.now }
        requires idle { Idle seat.old.me }
        requires few { (seat.old.me.0.drawn < 2 ^ 32) × (0 < seat.old.me.0.pid) }
        ensures lock { (seat.new.table_id ≡ seat.old.table_id) × (seat.new.id ≡ seat.old.id) }
        ensures took { Took V.history V.by V.subject seat.old.me.0 seat.new.me.0 result }
        ensures turn { HasTurn seat.new.me }
    {
        let ticket = self.draw(rt, seat);
        self.wait(rt, seat, ticket);
        let Some(value) = self.table.shared.exchange(seat, 0, None) else {
            unreachable!()
        };
        value
    }

    /// Draws a ticket, waits for its turn, and takes the value out of the lock. It takes no memory.
    pub fn turn<R: Wait>(&self, rt: &R, pass: &mut Pass<V>) -> V
        requires lock { pass.old.table_id ≡ self.now }
        requires idle { Idle pass.old.me }
        requires few { pass.old.me.0.drawn < 2 ^ 32 }
        ensures lock { (pass.new.table_id ≡ pass.old.table_id) × (pass.new.id ≡ pass.old.id) }
        // The value's history begins with what the pass had seen, and of its own items it has those that it made.
        ensures took { Took V.history V.by V.subject pass.old.me.0 pass.new.me.0 result }
        ensures turn { HasTurn pass.new.me }
    {
        let value = self.take(rt, &mut pass.seat);
        pass.tickets += 1;
        pass.front = value.count();
        value
    }

    // Puts the value back into its slot and serves the next ticket.
    fn put(&self, seat: &mut Seat<Option<V>, Known<V::Item, V::Subject>>, value: V)
        requires lock { seat.old.table_id ≡ self.now }
        requires turn { HasTurn seat.old.me × (0 < seat.old.me.0.pid) }
        requires about { seat.old.me.0.subject ≡ Some (V.subject value) }
        requires adds { Adds V.by seat.old.me.0.pid seat.old.me.0.seen (V.history value) }
        ensures lock { (seat.new.table_id ≡ seat.old.table_id) × (seat.new.id ≡ seat.old.id) }
        ensures gave { seat.new.me ≡ (giving V.by (V.history value) seat.old.me.0, []) }
    {
        let vacant = self.table.shared.exchange(seat, 0, Some(value));
        let None = vacant else { unreachable!() };
        self.table.shared.fetch_add::<GiveBack>(seat, SERVING, 1);
        self.bell.ring_for_one();
    }

    /// Ends the turn, and gives the value back with the item that this process added, if it added one. It waits for
    /// nobody and takes no memory.
    pub fn give(&self, pass: &mut Pass<V>, value: V)
        requires lock { pass.old.table_id ≡ self.now }
        requires turn { HasTurn pass.old.me }
        requires about { pass.old.me.0.subject ≡ Some (V.subject value) }
        requires adds { Adds V.by pass.old.me.0.pid pass.old.me.0.seen (V.history value) }
        ensures lock { (pass.new.table_id ≡ pass.old.table_id) × (pass.new.id ≡ pass.old.id) }
        ensures gave { pass.new.me ≡ (giving V.by (V.history value) pass.old.me.0, []) }
    {
        pass.front = value.count();
        self.put(&mut pass.seat, value);
    }

    // A lock with one pass.
    fn alone(alloc: Global, value: V) -> Result<(TurnLock<V>, Pass<V>), NoMemory>
    where
        V: Drop,
        requires { V.history value ≡ [] }
        ensures { IfOk result (λ r. (r.1.table_id ≡ r.0) × (r.1.me ≡ at_start (Some (V.subject value)) 1 1)) }
    {
        let about = Snapshot::of(&value);
        let mut slots = Vec::new(alloc);
        slots.push(Some(value))?;
        let Ok((table, seat)) = Table::new(alloc, &[0, 0], slots, &about) else {
            return Err(NoMemory);
        };
        let pass = Pass {
            seat,
            pid: 1,
            live: 1,
            tickets: 0,
            front: 0,
        };
        let bell = Bell::new();
        Ok((TurnLock { table, bell }, pass))
    }

    /// A lock round the value, whose history is empty, with `count` passes, numbered from 1. Where there is no memory,
    /// the value is let go.
    pub fn make(
        alloc: Global,
        value: V,
        count: u32,
    ) -> Result<(TurnLock<V>, Vec<Pass<V>>), NoMemory>
    where
        V: Drop,
        requires count { (1 ≤ count) × (count ≤ MAX_PROCESSES) }
        requires empty { V.history value ≡ [] }
        ensures { IfOk result (λ r. AllDealt r.0 (Some (V.subject value)) count r.1.items) }
    {
        let (lock, first) = TurnLock::alone(alloc, value)?;
        let passes = lock.deal_out(alloc, first, count)?;
        Ok((lock, passes))
    }

    // The first pass, and as many others as make `count`.
    fn deal_out(&self, alloc: Global, first: Pass<V>, count: u32) -> Result<Vec<Pass<V>>, NoMemory>
        requires count { (1 ≤ count) × (count ≤ MAX_PROCESSES) }
        requires first { (first.table_id ≡ self.now) × (first.me ≡ at_start first.me.0.subject 1 1) }
        ensures { IfOk result (λ ps. AllDealt self.now first.me.0.subject count ps.items) }
    {
        let mut passes = Vec::new(alloc);
        passes.push(first)?;
        for _ in 1..count {
            let next = self.deal(&mut passes[0]);
            passes.push(next)?;
        }
        Ok(passes)
    }

    // Makes the next pass, before any is joined.
    fn deal(&self, first: &mut Pass<V>) -> Pass<V>
        requires lock { first.old.table_id ≡ self.now }
        requires idle { Idle first.old.me }
        requires room { (first.old.me.0.pid ≡ 1) × (first.old.me.0.live < MAX_PROCESSES) × (first.old.me.0.ended ≡ []) }
        ensures first { (first.new.table_id ≡ first.old.table_id) × (first.new.me ≡ (dealing first.old.me.0, [])) }
        ensures next { (result.table_id ≡ first.old.table_id) × (result.me ≡ (dealt first.old.me.0, [])) }
    {
        let seat = self.table.shared.split_seat::<Deal>(&mut first.seat);
        first.live += 1;
        Pass {
            seat,
            pid: first.live,
            live: 0,
            tickets: 0,
            front: first.front,
        }
    }

    /// Joins the pass with the greatest number of those that are not joined into the first one, which then has seen
    /// what either of both had. Both hold neither a ticket nor the value.
    pub fn join(&self, into: &mut Pass<V>, other: Pass<V>)
        requires lock { (into.old.table_id ≡ self.now) × (other.table_id ≡ self.now) }
        requires idle { Idle into.old.me × Idle other.me }
        requires last { (into.old.me.0.pid ≡ 1) × (1 < into.old.me.0.live) × (other.me.0.pid ≡ into.old.me.0.live) }
        ensures lock { into.new.table_id ≡ into.old.table_id }
        ensures joined { into.new.me ≡ (joining into.old.me.0 other.me.0, []) }
        ensures begin { IsPrefix into.old.me.0.seen into.new.me.0.seen × IsPrefix other.me.0.seen into.new.me.0.seen }
    {
        let Pass {
            seat,
            pid: _,
            live: _,
            tickets: _,
            front,
        } = other;
        if into.front < front {
            into.front = front;
        }
        into.live -= 1;
        self.table.shared.join_seat::<Glue>(&mut into.seat, seat);
        self.table.shared.load::<Tell>(&mut into.seat, SERVING);
    }

    // What is in the slot at the end.
    fn empty(self, seat: Seat<Option<V>, Known<V::Item, V::Subject>>) -> Option<V>
        requires lock { seat.table_id ≡ self }
        requires alone { (seat.me.0.turn ≡ false) × (seat.me.0.pid ≡ 1) × (seat.me.0.live ≡ 1) }
        ensures { IfSome result (Closing V.history V.by V.subject seat.me.0) × IsSome result }
    {
        let TurnLock { table, bell: _ } = self;
        let mut closed = table.close_with(seat);
        let last = closed.take(0);
        closed.free();
        last
    }

    /// The value, once each other pass was joined into the first one. Its history is what this pass has seen, in which
    /// each process made the items that it has on record, and nobody else made any. It waits for nobody and takes no memory.
    pub fn close(self, pass: Pass<V>) -> V
        requires lock { pass.table_id ≡ self }
        requires idle { Idle pass.me }
        requires alone { (pass.me.0.pid ≡ 1) × (pass.me.0.live ≡ 1) }
        ensures { Closing V.history V.by V.subject pass.me.0 result }
    {
        let Pass {
            seat,
            pid: _,
            live: _,
            tickets: _,
            front: _,
        } = pass;
        let Some(value) = self.empty(seat) else {
            unreachable!()
        };
        value
    }
}

fn may_be_shared<T: Send + Sync>() {}

fn may_move<T: Send>() {}

// Threads may share a lock and move a pass, where the value may move.
fn crosses_threads<V: Chronicle + Send>() {
    may_be_shared::<TurnLock<V>>();
    may_move::<Pass<V>>();
}
