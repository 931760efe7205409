//! Tickets: the numbers from 0 on, which threads draw without a lock, each number once.
#![tactic(auto)]

mod drawing;
pub mod ticket_seat;
pub mod tickets;

pub use ticket_seat::TicketSeat;
pub use tickets::Tickets;
