// A worker does the orders that it receives, and sends what its provider's calls returned.

ghost use Rattle.crossbeam_channel.specs.Ends.{sends_on, receives_on};
ghost use Rattle.crew_workers.specs.Received.{HasReceived, HasStopped};
ghost use Rattle.crew_workers.specs.Seated.{IsSeated, IsSameSeat};
ghost use Rattle.seat_calls.specs.Dones.{Made};

use crew_channels::{
    DonePass, DoneSender, Order, OrderPass, OrderReceiver, receive_order, send_done,
};
use seat_calls::{Serves, done_by};
use std::alloc::Global;
use std::snapshot::Snapshot;
use std::sync::Wait;

/// A seat at work: its number, its provider, and what it knows of the channels.
#[derive(Drop)]
pub struct Worker<P: Drop> {
    /// The number of the seat.
    pub number: u32,
    /// The provider before its first call here, for proofs.
    pub before: Snapshot<P>,
    /// The provider.
    pub provider: P,
    /// What the seat knows of its channel.
    pub orders: OrderPass,
    /// What the seat knows of the shared channel.
    pub results: DonePass,
}

/// Waits for an order and does it: a job is one call on the provider, and its result is sent. Returns
/// whether it was a job.
pub fn do_order<R: Wait, P: Serves>(
    rt: &R,
    alloc: Global,
    from: &OrderReceiver,
    to: &DoneSender,
    worker: &mut Worker<P>,
) -> bool
    requires { IsSeated (Made P.may P.tells P.calls P.faults) (receives_on from.now)
        (sends_on to.now) worker.old }
    ensures seated { IsSeated (Made P.may P.tells P.calls P.faults) (receives_on from.now)
        (sends_on to.now) worker.new }
    ensures same { IsSameSeat worker.old worker.new }
    ensures received { HasReceived worker.old worker.new result }
{
    match receive_order(rt, from, &mut worker.orders) {
        Order::Run(job) => {
            let done = done_by(&mut worker.provider, alloc, worker.number, job);
            send_done(rt, to, &mut worker.results, done);
            true
        }
        Order::Stop => false,
    }
}

/// Does orders, one after another, up to the first that is no job.
pub fn work<R: Wait, P: Serves>(
    rt: &R,
    alloc: Global,
    from: &OrderReceiver,
    to: &DoneSender,
    worker: Worker<P>,
) -> Worker<P>
    requires { IsSeated (Made P.may P.tells P.calls P.faults) (receives_on from.now)
        (sends_on to.now) worker }
    ensures seated { IsSeated (Made P.may P.tells P.calls P.faults) (receives_on from.now)
        (sends_on to.now) result }
    ensures same { IsSameSeat worker result }
    ensures stopped { HasStopped worker result }
{
    let mut working = worker;
    for _ in rt.forever() {
        if !do_order(rt, alloc, from, to, &mut working) {
            return working;
        }
    }
    unreachable!()
}
