// Seats come back from their channels.

ghost use Rattle.std.specs.Prelude.{◌≡◌, ◌<◌, ◌≤◌, ℕ, true, None, length, vec_len, vec_items, vec_capacity};
ghost use Rattle.std.specs.Prelude.{slice_index_or};
ghost use Rattle.crossbeam_channel.specs.Claims.{view, IsSeatAt};
ghost use Rattle.crossbeam_channel.specs.Ends.{sends_on, receives_on};
ghost use Rattle.crew_workers.specs.Posts.{IsStationed};
ghost use Rattle.seat_calls.specs.Dones.{Made};
ghost use Rattle.crew_seating.specs.Closed.{HasLeft, HasNone, IsDriver};
ghost use Rattle.crew_seating.specs.Opened.{IsPaired};

use crew_channels::{DonePass, DoneSender, rejoin_orders, rejoin_results};
use crew_workers::{SeatChannel, Station, Worker, put};
use provider_trait::Provider;
use seat_calls::Seat;

// The seat of a worker that has come back. The driver has all passes of its channel then.
fn close_one<P: Provider>(
    channel: &SeatChannel,
    to: &DoneSender,
    pass: &mut DonePass,
    station: Station<P>,
) -> Seat<P>
    requires stationed { IsStationed (Made P.may P.tells P.calls P.faults) channel.now
        (sends_on to.now) station }
    requires paired { IsPaired channel.now }
    requires driver { IsDriver (sends_on to.now) pass.old }
    ensures seat { (result.provider ≡ station.worker.provider) × (result.job ≡ None) }
    ensures driver { IsDriver (sends_on to.now) pass.new }
    ensures same { ((view pass.new).made ≡ (view pass.old).made)
        × ((view pass.new).got ≡ (view pass.old).got) }
    ensures left { HasLeft (view pass.old).got station }
    ensures others { (k : ℕ) → (view pass.old).made ≤ k → HasNone (view pass.old).got k }
{
    let Station { orders, worker } = station;
    let Worker {
        provider,
        orders: received,
        results,
        ..
    } = worker;
    let mut sent = orders;
    rejoin_orders(&channel.sender, &mut sent, received);
    rejoin_results(to, pass, results);
    Seat::new(provider)
}

/// The seats of the workers that have come back, in their order. It takes no memory.
pub fn close<P: Provider>(
    channels: &[SeatChannel],
    to: &DoneSender,
    pass: DonePass,
    stations: Vec<Station<P>>,
    room: Vec<Seat<P>>,
) -> Vec<Seat<P>>
    requires len { vec_len stations ≡ length channels.now }
    requires room { (vec_len room ≡ 0) × (vec_len stations ≤ vec_capacity room) }
    requires stationed { (k : ℕ) (d : _) (e : _) → k < vec_len stations
        → IsStationed (Made P.may P.tells P.calls P.faults)
        (slice_index_or channels.now k e) (sends_on to.now)
        (slice_index_or (vec_items stations) k d)
        × IsPaired (slice_index_or channels.now k e) }
    requires driver { IsDriver (sends_on to.now) pass }
    ensures len { vec_len result ≡ vec_len stations }
    ensures seats { (k : ℕ) (d : _) (s : _) → k < vec_len stations
        → ((slice_index_or (vec_items result) k s).provider
        ≡ (slice_index_or (vec_items stations) k d).worker.provider)
        × ((slice_index_or (vec_items result) k s).job ≡ None)
        × HasLeft (view pass).got (slice_index_or (vec_items stations) k d) }
    ensures others { 0 < vec_len stations → (k : ℕ) → (view pass).made ≤ k
        → HasNone (view pass).got k }
{
    let mut driver = pass;
    let mut seats = room;
    for station in stations {
        let at = seats.len();
        let seat = close_one(&channels[at], to, &mut driver, station);
        put(&mut seats, seat);
    }
    seats
}
