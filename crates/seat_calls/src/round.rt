// A round: each seat with a job makes one call, side by side.

ghost use Rattle.std.specs.Prelude.{◌≡◌, ◌<◌, ℕ, length, slice_index_or};
ghost use Rattle.seat_calls.specs.Rounds.{HasRun};

use crate::calling::call_provider;
use crate::seat::Seat;
use provider_trait::Provider;
use std::alloc::Global;
use std::thread;
use std::thread::Threads;

/// Each seat with a job has in `got` what one call on its provider with that job returned. The calls
/// are made side by side. Other seats are unchanged.
///
/// The round takes no memory of its own, and cannot be refused.
pub fn run_round<R: Threads + Sync, P: Provider>(rt: &R, alloc: Global, seats: &mut [Seat<P>])
    ensures len { length seats.new ≡ length seats.old }
    ensures ran { (k : ℕ) (d : _) → k < length seats.old
        → HasRun P.may P.tells P.calls P.faults (slice_index_or seats.old k d)
        (slice_index_or seats.new k d) }
{
    let threads = seats.len().max(1);
    thread::for_each_mut(rt, seats, threads, &|_, seat| run_seat(alloc, seat));
}

// Makes the call of one seat, if it has a job.
fn run_seat<P: Provider>(alloc: Global, seat: &mut Seat<P>)
    ensures { HasRun P.may P.tells P.calls P.faults seat.old seat.new }
{
    if let Some(job) = &seat.job {
        let got = call_provider(&mut seat.provider, alloc, job);
        replace(&mut seat.got, Some(got));
    }
}

// Puts a value in place of another, which is dropped.
fn replace<T: Drop>(place: &mut T, value: T)
    ensures { place.new ≡ value }
{
    *place = value;
}
