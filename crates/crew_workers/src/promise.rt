// What the thread of a worker promises.

use crate::worker::Worker;
use crew_channels::{DoneSender, OrderReceiver};
use seat_calls::Serves;
use std::snapshot::Snapshot;
use std::thread::Promise;

/// What the thread of a worker promises: the worker comes back after `Stop`, and has done what it
/// received.
#[derive(Drop)]
pub struct SeatPromise<P: Drop> {
    /// The worker as it was started.
    pub worker: Snapshot<Worker<P>>,
    /// The seat's end of its channel.
    pub from: Snapshot<OrderReceiver>,
    /// The seat's end of the shared channel.
    pub to: Snapshot<DoneSender>,
}

impl<P: Serves> Promise<Worker<P>> for SeatPromise<P> {
    ghost use Rattle.crossbeam_channel.specs.Ends.{sends_on, receives_on};
    ghost use Rattle.crew_workers.specs.Received.{HasStopped};
    ghost use Rattle.crew_workers.specs.Seated.{IsSeated, IsSameSeat};
    ghost use Rattle.seat_calls.specs.Dones.{Made};

    ghost kept_by = { λ p r. IsSeated (Made P.may P.tells P.calls P.faults)
        (receives_on p.from.value) (sends_on p.to.value) r × IsSameSeat p.worker.value r
        × HasStopped p.worker.value r };
}
