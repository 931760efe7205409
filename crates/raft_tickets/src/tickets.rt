//! Tickets: numbers that threads draw, each number once.

ghost use Rattle.std.specs.Prelude.{◌≡◌, ℕ, ◌+◌, ◌^◌, ◌<◌, [], ◌∷◌, All, IfOk, IfErr, OnOk, List, replicate, vec_len};
ghost use Rattle.raft_tickets.specs.Draws.{IsSeatOf, IsNewSeatOf, Rises, Draw, once_below, IsOpenRefusal};
ghost use Rattle.raft_tickets.specs.Weights.{weigh, occurrences};

use crate::TicketSeat;
use crate::drawing::{Both, Drawing, Draws, First, Lists, Sizes, Word};
use atomic_table::{Seat, Table};
use raft_base::{Error, Result};
use std::alloc::Global;
use std::marker::Model;

/// What the number of tickets and that of seats must stay below. The counter never passes twice as much, so
/// it can't wrap.
const LIMIT: usize = 1 << 62;

/// The numbers from 0 on, each of which is drawn once, by some seat. A draw returns those below a total.
#[derive(Drop)]
pub struct Tickets {
    table: Table<(), Lists, Sizes, Drawing, Global>,
    total: u64,
}

impl Model for Tickets {
    ghost use Rattle.raft_tickets.specs.Draws.{Tickets, tickets_code};

    ghost Value = { Tickets };

    ghost coded = { tickets_code };

    ghost use Rattle.raft_tickets.specs.TicketModel.{tickets_in, IsOpen};

    ghost view = { tickets_in };

    ghost invariant = { IsOpen };
}

impl Tickets {
    /// Makes tickets of the numbers below `total`, and `seats` seats, which have drawn nothing yet.
    ///
    /// # Errors
    ///
    /// `InvalidArgument` if `seats` is 0, or `seats` or `total` is 2^62 or more; `Memory`.
    pub fn open(alloc: Global, total: usize, seats: usize) -> Result<(Tickets, Vec<TicketSeat>)>
        ensures tickets { IfOk result (λ r. (r.0.total ≡ total) × (r.0.seats ≡ seats)) }
        ensures seats { IfOk result (λ r. (vec_len r.1 ≡ seats) × All (IsNewSeatOf r.0) r.1.items) }
        ensures accepted { OnOk result ((0 < seats) × (seats < 2 ^ 62) × (total < 2 ^ 62)) }
        ensures fault { IfErr result (IsOpenRefusal total seats) }
    {
        if seats == 0 || seats >= LIMIT || total >= LIMIT {
            return Err(Error::InvalidArgument(format!(in alloc;
                "{seats} seats can't draw {total} numbers"
            )?));
        }
        let sizes = Sizes {
            total: total as u64,
            seats: seats as u64,
        };
        let (table, root) = Table::of_words(alloc, &[0], &sizes)?;
        let drawers = split_seats(alloc, &table.shared, root, sizes.total, seats)?;
        let tickets = Tickets {
            table,
            total: sizes.total,
        };
        Ok((tickets, drawers))
    }

    /// Draws the next number, by one atomic addition to the counter, and returns it if it is below the total.
    /// Returns `None` once all numbers below the total are drawn. A seat that has got `None` draws no more:
    /// it always gets `None`, and leaves the counter alone. `seat` must be one of these tickets' own.
    pub fn draw(&self, seat: &mut TicketSeat) -> Option<usize>
        requires { IsSeatOf self.now seat.old }
        ensures same { IsSeatOf self.now seat.new }
        ensures draw { Draw seat.old.total seat.old.drawn result seat.new.drawn }
        ensures rises { Rises seat.new.drawn }
    {
        if seat.ended {
            return None;
        }
        let number = self.table.shared.fetch_add::<Draws>(&mut seat.seat, 0, 1);
        if number < self.total {
            Some(number as usize)
        } else {
            seat.ended = true;
            None
        }
    }

    /// Returns how many numbers all seats drew. `seats` must be all seats of these tickets, given back.
    /// Numbers at or above the total, which were drawn in vain, count too.
    pub fn close(self, mut seats: Vec<TicketSeat>) -> usize
        requires { (vec_len seats ≡ self.seats) × All (IsSeatOf self) seats.items }
        ensures { (x : ℕ) → weigh (λ s. occurrences x s.drawn) seats.items ≡ once_below x result }
    {
        let _ = &self.total;
        let Some(last) = seats.pop() else {
            unreachable!()
        };
        let TicketSeat { mut seat, .. } = last;
        join_seats(&self.table.shared, &mut seat, seats);
        let Tickets { table, .. } = self;
        let closed = table.close_with(seat);
        let word = closed.word(0);
        closed.free();
        word as usize
    }
}

/// Splits the seat `root` into `count` seats of numbers below `total`, which have drawn nothing. `count` is
/// at least 1.
///
/// # Errors
///
/// `Memory` alone.
fn split_seats(
    alloc: Global,
    shared: &Word,
    mut root: Seat<(), Lists>,
    total: u64,
    count: usize,
) -> Result<Vec<TicketSeat>>
    requires word { 0 < shared.now.table_id.words }
    requires root { (root.table_id ≡ shared.now.table_id) × (root.me ≡ (replicate count [], [])) }
    requires some { 0 < count }
    ensures ok { IfOk result (λ v. (vec_len v ≡ count)
        × All (λ s. (s.table ≡ shared.now.table_id) × (s.total ≡ total) × (s.drawn ≡ [])) v.items) }
    ensures fault { IfErr result (λ e. e ≡ Error.Memory) }
{
    let mut seats = Vec::with_capacity(alloc, count)?;
    for _ in 1..count {
        let seat = shared.split_seat::<First>(&mut root);
        seats.push(new_seat(seat, total))?;
    }
    seats.push(new_seat(root, total))?;
    Ok(seats)
}

/// Returns a ticket seat over `seat`, for numbers below `total`. It has drawn nothing yet.
fn new_seat(seat: Seat<(), Lists>, total: u64) -> TicketSeat
    requires { seat.me ≡ ([] ∷ [], []) }
    ensures { (result.table ≡ seat.table_id) × (result.total ≡ total) × (result.drawn ≡ []) }
{
    TicketSeat {
        seat,
        total,
        ended: false,
    }
}

/// Joins `seats`, which were given back, into `seat`, which then has drawn all that they drew.
fn join_seats(shared: &Word, seat: &mut Seat<(), Lists>, mut seats: Vec<TicketSeat>)
    requires word { 0 < shared.now.table_id.words }
    requires seat { seat.old.table_id ≡ shared.now.table_id }
    requires seats { All (λ s. s.table ≡ shared.now.table_id) seats.items }
    ensures same { (seat.new.table_id ≡ seat.old.table_id) × (seat.new.me.1 ≡ seat.old.me.1) }
    ensures lists { (f : List ℕ → ℕ)
        → weigh f seat.new.me.0 ≡ weigh f seat.old.me.0 + weigh (λ s. f s.drawn) seats.items }
{
    while let Some(other) = seats.pop() {
        join_seat(shared, seat, other);
    }
}

/// Joins `other`, which was given back, into `seat`, which then has drawn all that both drew.
fn join_seat(shared: &Word, seat: &mut Seat<(), Lists>, other: TicketSeat)
    requires word { 0 < shared.now.table_id.words }
    requires seat { seat.old.table_id ≡ shared.now.table_id }
    requires other { other.table ≡ shared.now.table_id }
    ensures same { (seat.new.table_id ≡ seat.old.table_id) × (seat.new.me.1 ≡ seat.old.me.1) }
    ensures lists { (f : List ℕ → ℕ) → weigh f seat.new.me.0 ≡ weigh f seat.old.me.0 + f
        other.drawn }
{
    let TicketSeat { seat: other, .. } = other;
    shared.join_seat::<Both>(seat, other);
}
