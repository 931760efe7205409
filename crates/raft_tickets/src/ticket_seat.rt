//! A seat, by which a thread draws numbers.

use crate::drawing::Lists;
use atomic_table::Seat;
use std::marker::Model;

/// The right to draw numbers of one `Tickets`. Each thread draws with a seat of its own.
#[derive(Drop)]
pub struct TicketSeat {
    /// The seat at the counter.
    pub(crate) seat: Seat<(), Lists>,
    /// The total of the tickets.
    pub(crate) total: u64,
    /// Whether the seat has drawn a number at or above the total, and so draws no more.
    pub(crate) ended: bool,
}

impl Model for TicketSeat {
    ghost use Rattle.raft_tickets.specs.Draws.{TicketSeat, ticket_seat_code};

    ghost Value = { TicketSeat };

    ghost coded = { ticket_seat_code };

    ghost use Rattle.raft_tickets.specs.TicketSeatModel.{ticket_seat_in, DrawsOnward};

    ghost view = { ticket_seat_in };

    ghost invariant = { DrawsOnward };
}
