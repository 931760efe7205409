//! [`WaitingOrders`]: orders that wait until they are taken, in turn.

ghost use Rattle.std.specs.Prelude.{◌≡◌, ◌⊎◌, ◌+◌, ◌-◌, ◌^◌, ◌≤◌, [], ◌∷◌, ◌++◌, length, IfErr, IfNone, IfSome, OnErr, OnOk, option_map, slice_get};

use crate::order::Order;
use raft_base::{Error, Result};
use std::alloc::Global;
use std::collections::VecDeque;

/// Orders that wait, oldest first, and how many orders there were in all.
#[derive(Drop)]
pub struct WaitingOrders {
    /// The orders that wait, oldest first.
    orders: VecDeque<Order>,
    /// How many orders were ever added.
    count: u64,
}

/// An order with its number.
#[derive(Drop)]
pub struct NumberedOrder {
    /// How many orders were added before this one.
    pub number: u64,
    /// The order.
    pub order: Order,
}

impl WaitingOrders {
    /// Returns a list without orders, which will allocate from `alloc`.
    pub fn new(alloc: Global) -> WaitingOrders
        ensures orders { result.orders.items ≡ [] }
        ensures count { result.count ≡ 0 }
    {
        WaitingOrders {
            orders: VecDeque::new(alloc),
            count: 0,
        }
    }

    /// Adds `order` after the others.
    ///
    /// # Errors
    ///
    /// `Full` after 2^64 - 1 orders; `Memory`. The list is unchanged then, and `order` is dropped.
    pub fn push(&mut self, order: Order) -> Result<()>
        ensures orders { OnOk result (self.new.orders.items ≡ self.old.orders.items ++ order ∷ []) }
        ensures count { OnOk result (self.new.count ≡ self.old.count + 1) }
        ensures same_orders { OnErr result (self.new.orders.items ≡ self.old.orders.items) }
        ensures same_count { OnErr result (self.new.count ≡ self.old.count) }
        ensures fault { IfErr result
            (λ e. (e ≡ Error.Memory) ⊎ (e ≡ Error.Full) × (self.old.count ≡ 2 ^ 64 - 1)) }
    {
        if self.count == u64::MAX {
            return Err(Error::Full);
        }
        self.orders.push_back(order)?;
        self.count += 1;
        Ok(())
    }

    /// Returns the oldest order that waits, or `None` if none waits.
    pub fn first(&self) -> Option<&Order>
        ensures { option_map (λ o. o.now) result ≡ slice_get self.now.orders.items 0 }
    {
        self.orders.front()
    }

    /// Returns how many orders were taken: all that were added, without those that wait.
    pub fn taken(&self) -> u64
        requires { length self.now.orders.items ≤ self.now.count }
        ensures { result ≡ self.now.count - length self.now.orders.items }
    {
        self.count - self.orders.len() as u64
    }

    /// Removes the oldest order that waits, and returns it with its number. Returns `None` if none waits.
    pub fn take_oldest(&mut self) -> Option<NumberedOrder>
        requires { length self.old.orders.items ≤ self.old.count }
        ensures number { IfSome result (λ o. o.number ≡ self.old.count - length self.old.orders.items) }
        ensures order { IfSome result (λ o. self.old.orders.items ≡ o.order ∷ self.new.orders.items) }
        ensures count { self.new.count ≡ self.old.count }
        ensures none { IfNone result (self.old.orders.items ≡ []) }
        ensures same { IfNone result (self.new.orders.items ≡ []) }
    {
        let number = self.taken();
        let order = self.orders.pop_front()?;
        Some(NumberedOrder { number, order })
    }
}
