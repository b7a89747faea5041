// The driver's side of a seat.

ghost use Rattle.std.specs.Prelude.{◌≡◌, ◌++◌, ◌∷◌, []};
ghost use Rattle.crossbeam_channel.specs.Claims.{view};
ghost use Rattle.crossbeam_channel.specs.Ends.{sends_on, receives_on};
ghost use Rattle.crew_channels.specs.Orders.{jobs_in};
ghost use Rattle.crew_workers.specs.Posts.{HasObeyed, IsPlaced, IsPosted, IsSamePlace, sent_last};
ghost use Rattle.seat_calls.specs.Dones.{Made};

use crate::channel::SeatChannel;
use crate::promise::SeatPromise;
use crate::worker::{Worker, do_order};
use crew_channels::{DoneSender, Order, OrderPass, send_order};
use seat_calls::Serves;
use std::alloc::Global;
use std::sync::Wait;

/// Where the worker of a seat is.
#[derive(Drop)]
pub enum Place<P: Drop> {
    /// In a thread of its own, which has promised this.
    Away(SeatPromise<P>),
    /// With the driver, since no thread was started.
    Here(Worker<P>),
}

/// The driver's side of a seat that was started.
#[derive(Drop)]
pub struct Post<P: Drop> {
    /// What the driver knows of the seat's channel.
    pub orders: OrderPass,
    /// Where the seat's worker is.
    pub place: Place<P>,
}

/// A seat that is not started, or has come back: the driver's side and the worker.
#[derive(Drop)]
pub struct Station<P: Drop> {
    /// What the driver knows of the seat's channel.
    pub orders: OrderPass,
    /// The seat's worker.
    pub worker: Worker<P>,
}

/// Sends an order to the seat. A seat without a thread does it at once, in the driver's thread.
pub fn command<R: Wait, P: Serves>(
    rt: &R,
    alloc: Global,
    channel: &SeatChannel,
    to: &DoneSender,
    post: &mut Post<P>,
    order: Order,
)
    requires posted { IsPosted (Made P.may P.tells P.calls P.faults) channel.now (sends_on to.now)
        post.old }
    ensures posted { IsPosted (Made P.may P.tells P.calls P.faults) channel.now (sends_on to.now)
        post.new }
    ensures same { IsSamePlace post.old.place post.new.place }
    ensures obeyed { HasObeyed post.old.place post.new.place }
    ensures sent { (view post.new.orders).sent ≡ (view post.old.orders).sent ++ order ∷ [] }
{
    send_order(rt, &channel.sender, &mut post.orders, order);
    obey(rt, alloc, channel, to, &mut post.place);
}

// Where the worker is with the driver, it does its next order.
fn obey<R: Wait, P: Serves>(
    rt: &R,
    alloc: Global,
    channel: &SeatChannel,
    to: &DoneSender,
    place: &mut Place<P>,
)
    requires placed { IsPlaced (Made P.may P.tells P.calls P.faults)
        (receives_on channel.now.receiver) (sends_on to.now) place.old }
    ensures placed { IsPlaced (Made P.may P.tells P.calls P.faults)
        (receives_on channel.now.receiver) (sends_on to.now) place.new }
    ensures same { IsSamePlace place.old place.new }
    ensures obeyed { HasObeyed place.old place.new }
{
    if let Place::Here(worker) = place {
        do_order(rt, alloc, &channel.receiver, to, worker);
    }
}

/// Sends `Stop` to a worker in a thread of its own. One that is with the driver has stopped before.
pub fn dismiss<R: Wait, P: Serves>(
    rt: &R,
    channel: &SeatChannel,
    to: &DoneSender,
    post: &mut Post<P>,
)
    requires posted { IsPosted (Made P.may P.tells P.calls P.faults) channel.now (sends_on to.now)
        post.old }
    ensures posted { IsPosted (Made P.may P.tells P.calls P.faults) channel.now (sends_on to.now)
        post.new }
    ensures same { post.new.place ≡ post.old.place }
    ensures sent { jobs_in (view post.new.orders).sent ≡ jobs_in (view post.old.orders).sent }
    ensures last { (view post.new.orders).sent
        ≡ sent_last post.old.place (view post.old.orders).sent }
{
    if let Place::Away(_) = &post.place {
        send_order(rt, &channel.sender, &mut post.orders, Order::Stop);
    }
}
