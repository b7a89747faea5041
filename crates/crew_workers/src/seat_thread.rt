// The threads of workers.

ghost use Rattle.std.specs.Prelude.{◌≡◌, Some};
ghost use Rattle.crossbeam_channel.specs.Claims.{view};
ghost use Rattle.crossbeam_channel.specs.Ends.{sends_on, receives_on};
ghost use Rattle.crew_workers.specs.Posts.{IsPosted, IsStationed, IsStartOf, Gave, GaveWorker};
ghost use Rattle.crew_workers.specs.Posts.{promise_of, sent_first};
ghost use Rattle.crew_workers.specs.declared.post.Place.TheVariants.{Away};
ghost use Rattle.crew_workers.specs.Received.{HasStopped};
ghost use Rattle.crew_workers.specs.Seated.{IsSeated, IsSameSeat};
ghost use Rattle.crew_workers.specs.Threads.{HasThread};
ghost use Rattle.seat_calls.specs.Dones.{Made};

use crate::channel::SeatChannel;
use crate::post::{Place, Post, Station};
use crate::promise::SeatPromise;
use crate::worker::{Worker, work};
use crew_channels::{DoneSender, Order, OrderReceiver, send_order};
use seat_calls::Serves;
use std::alloc::Global;
use std::snapshot::Snapshot;
use std::sync::Wait;
use std::thread::{PromisedHandle, Scope, Threads};

/// The thread of a worker.
#[derive(Drop)]
pub enum SeatThread<P: Serves> {
    /// A thread, which gives its worker back.
    Running(PromisedHandle<Worker<P>, SeatPromise<P>>),
    /// No thread was started: the worker is with the driver.
    NotStarted,
}

/// A seat that was started: the driver's side and the thread.
#[derive(Drop)]
pub(crate) struct Started<P: Serves> {
    /// The driver's side.
    pub post: Post<P>,
    /// The thread.
    pub thread: SeatThread<P>,
}

/// Starts the worker in a thread. Where no thread is started, the worker is sent `Stop`, and stays
/// with the driver.
pub(crate) fn start<'s, E, R: Threads + Wait + Sync, P: Serves + Send + 's>(
    rt: &'s R,
    alloc: Global,
    scope: &Scope<'s, E>,
    channel: &'s SeatChannel,
    to: &'s DoneSender,
    station: Station<P>,
) -> Started<P>
    requires ready { IsStationed (Made P.may P.tells P.calls P.faults) channel.now
        (sends_on to.now) station }
    ensures posted { IsPosted (Made P.may P.tells P.calls P.faults) channel.now (sends_on to.now)
        result.post }
    ensures start { IsStartOf station result.post }
    ensures sent { (view result.post.orders).sent
        ≡ sent_first result.post.place (view station.orders).sent }
    ensures thread { HasThread (promise_of result.post.place) result.thread }
{
    let Station { orders, worker } = station;
    let from = &channel.receiver;
    let promise = promise_for(&worker, from, to);
    let promised = promise_for(&worker, from, to);
    match scope.spawn_with(
        promised,
        move || -> Worker<P>
            requires { IsSeated (Made P.may P.tells P.calls P.faults) (receives_on from.now)
                (sends_on to.now) worker }
            ensures { IsSeated (Made P.may P.tells P.calls P.faults) (receives_on from.entry.now)
                (sends_on to.entry.now) result × IsSameSeat worker result × HasStopped worker result }
        { work(rt, alloc, from, to, worker) },
    ) {
        Ok(handle) => Started {
            post: Post {
                orders,
                place: Place::Away(promise),
            },
            thread: SeatThread::Running(handle),
        },
        Err(refused) => {
            let mut orders = orders;
            send_order(rt, &channel.sender, &mut orders, Order::Stop);
            let worker = (refused.value)();
            Started {
                post: Post {
                    orders,
                    place: Place::Here(worker),
                },
                thread: SeatThread::NotStarted,
            }
        }
    }
}

// What the thread of this worker is to promise.
fn promise_for<P: Drop>(worker: &Worker<P>, from: &OrderReceiver, to: &DoneSender) -> SeatPromise<P>
    ensures worker { result.worker.value ≡ worker.now }
    ensures from { result.from.value ≡ from.now }
    ensures to { result.to.value ≡ to.now }
{
    SeatPromise {
        worker: Snapshot::of(worker),
        from: Snapshot::of(from),
        to: Snapshot::of(to),
    }
}

/// Waits until the worker has come back.
pub(crate) fn finish<R: Threads, P: Serves>(
    rt: &R,
    post: Post<P>,
    thread: SeatThread<P>,
) -> Station<P>
    requires thread { HasThread (promise_of post.place) thread }
    ensures { Gave (Made P.may P.tells P.calls P.faults) post result }
{
    let Post { orders, place } = post;
    let worker = match place {
        Place::Away(promise) => join(rt, promise, thread),
        Place::Here(worker) => worker,
    };
    Station { orders, worker }
}

// Waits until the thread has given its worker back.
fn join<R: Threads, P: Serves>(rt: &R, promise: SeatPromise<P>, thread: SeatThread<P>) -> Worker<P>
    requires thread { HasThread (Some promise) thread }
    ensures { GaveWorker (Made P.may P.tells P.calls P.faults) (Away promise) result }
{
    match thread {
        SeatThread::Running(handle) => handle.join(rt),
        SeatThread::NotStarted => unreachable!(),
    }
}
