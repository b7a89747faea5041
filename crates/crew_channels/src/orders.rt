// The channel of a seat, by which it gets its orders.

ghost use Rattle.std.specs.Prelude.{◌≡◌, ◌++◌, ◌∷◌, [], List, true, false, IfOk};
ghost use Rattle.crossbeam_channel.specs.Claims.{view, IsSeatAt};
ghost use Rattle.crossbeam_channel.specs.Ends.{sends_on, receives_on};
ghost use Rattle.crew_channels.specs.Orders.{orders};
ghost use Rattle.crew_channels.specs.declared.order.Order.{Order};

use crate::order::Order;
use arm_value::OutOfMemory;
use crossbeam_channel::protocol::{Join, Lesson, Outcome, Protocol, Split};
use crossbeam_channel::{Pass, RuledReceiver, RuledSender, SendError, bounded_with};
use std::alloc::Global;
use std::collections::LinkedList;
use std::sync::Wait;
use std::thread;

/// What the holder of a pass may do, and has done. No value of it is made.
pub struct Orders {
    /// Whether it sends, as the driver does.
    pub sends: bool,
    /// Whether it receives, as the seat does.
    pub receives: bool,
    /// What it has sent, oldest first.
    pub sent: LinkedList<Order>,
    /// What it has received, oldest first.
    pub got: LinkedList<Order>,
}

/// The rule of the channel: what was sent is what was received, and then what the channel holds.
pub struct InOrder;

impl Protocol<Order, Orders> for InOrder {
    ghost use Rattle.std.specs.Prelude.{true, []};
    ghost use Rattle.crew_channels.specs.Orders.{orders, AreInOrder};

    ghost holds = { AreInOrder };

    ghost first = { orders true true [] [] };
}

// An order was sent.
struct Sent;

impl Outcome<Order, Orders> for Sent {
    ghost then = { λ v x w. w ≡ orders v.sends v.receives (v.sent ++ x ∷ []) v.got };
}

impl Lesson<Order, Orders> for Sent {
    ghost fact = { λ v items. Unit {0} };
}

// An order was received.
struct Received;

impl Outcome<Order, Orders> for Received {
    ghost then = { λ v x w. w ≡ orders v.sends v.receives v.sent (v.got ++ x ∷ []) };
}

impl Lesson<Order, Orders> for Received {
    ghost fact = { λ v items. Unit {0} };
}

// A pass for the driver and one for the seat, or both in one.
struct Ends;

impl Split<Orders> for Ends {
    ghost left = { λ v. orders true false v.sent [] };

    ghost right = { λ v. orders false true [] v.got };
}

impl Join<Orders> for Ends {
    ghost both = { λ v w. orders true true v.sent w.got };

    ghost spent = { orders false false [] [] };
}

impl Lesson<Order, Orders> for Ends {
    ghost fact = { λ v items. v.sent ≡ v.got ++ items };
}

/// The driver's end of a seat's channel.
pub type OrderSender = RuledSender<Order, Orders, InOrder>;

/// The seat's end of its channel.
pub type OrderReceiver = RuledReceiver<Order, Orders, InOrder>;

/// What a thread knows of a seat's channel.
pub type OrderPass = Pass<Order, Orders>;

/// A channel for one order, with the driver's pass and the seat's.
pub fn open_orders(
    alloc: Global,
) -> Result<(OrderSender, OrderReceiver, OrderPass, OrderPass), OutOfMemory>
    ensures ends { IfOk result (λ r. receives_on r.1 ≡ sends_on r.0) }
    ensures passes { IfOk result (λ r. IsSeatAt (sends_on r.0) r.2 × IsSeatAt (sends_on r.0) r.3) }
    ensures views { IfOk result (λ r.
        (view r.2 ≡ orders true false [] []) × (view r.3 ≡ orders false true [] [])) }
{
    let (sender, receiver, pass) = bounded_with::<Order, Orders, InOrder, Global>(alloc, 1)?;
    let mut pass = pass;
    let seat = sender.another::<Ends>(&mut pass);
    Ok((sender, receiver, pass, seat))
}

/// Sends an order to the seat. It waits until the channel has room.
pub fn send_order<R: Wait>(rt: &R, to: &OrderSender, pass: &mut OrderPass, order: Order)
    requires { IsSeatAt (sends_on to.now) pass.old × ((view pass.old).sends ≡ true) }
    ensures seat { IsSeatAt (sends_on to.now) pass.new }
    ensures sent { view pass.new ≡ orders (view pass.old).sends (view pass.old).receives
        ((view pass.old).sent ++ order ∷ []) (view pass.old).got }
{
    let mut unsent = order;
    for _ in rt.forever() {
        match to.send_as::<Sent, R>(rt, pass, unsent) {
            Ok(()) => return,
            Err(SendError::Disconnected(back)) => unsent = back,
            Err(SendError::OutOfMemory(back)) => unsent = back,
        }
        thread::yield_now();
    }
    unreachable!()
}

/// Waits for the next order of the seat.
pub fn receive_order<R: Wait>(rt: &R, from: &OrderReceiver, pass: &mut OrderPass) -> Order
    requires { IsSeatAt (receives_on from.now) pass.old × ((view pass.old).receives ≡ true) }
    ensures seat { IsSeatAt (receives_on from.now) pass.new }
    ensures got { view pass.new ≡ orders (view pass.old).sends (view pass.old).receives
        (view pass.old).sent ((view pass.old).got ++ result ∷ []) }
{
    for _ in rt.forever() {
        if let Ok(order) = from.recv_as::<Received, R>(rt, pass) {
            return order;
        }
        thread::yield_now();
    }
    unreachable!()
}

/// Takes the seat's pass back: what was sent is what the seat has received, and then what the channel
/// still holds.
pub fn rejoin_orders(to: &OrderSender, pass: &mut OrderPass, seat: OrderPass)
    requires seats { IsSeatAt (sends_on to.now) pass.old × IsSeatAt (sends_on to.now) seat }
    requires roles { ((view pass.old).sends ≡ true) × ((view seat).receives ≡ true) }
    ensures seat { IsSeatAt (sends_on to.now) pass.new }
    ensures sent { ((view pass.new).sends ≡ true) × ((view pass.new).sent ≡ (view pass.old).sent) }
    ensures left { (held : List Order) × ((view pass.old).sent ≡ (view seat).got ++ held) }
{
    to.absorb::<Ends>(pass, seat);
    to.learn_as::<Ends>(pass);
}
