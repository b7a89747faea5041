// Seats are moved to their channels.

ghost use Rattle.std.specs.Prelude.{◌≡◌, ◌<◌, ◌≤◌, ℕ, vec_len, vec_items, vec_capacity};
ghost use Rattle.std.specs.Prelude.{slice_index_or, length};
ghost use Rattle.crew_seating.specs.Opened.{IsStationOf};

use crate::ends::SeatPasses;
use crew_workers::{Station, Worker, let_go, put, take_first};
use provider_trait::Provider;
use seat_calls::Seat;
use std::collections::VecDeque;
use std::snapshot::Snapshot;

/// Moves each seat to its channel, in order. It takes no memory.
pub fn station_all<P: Provider>(
    seats: Vec<Seat<P>>,
    passes: VecDeque<SeatPasses>,
    room: Vec<Station<P>>,
) -> Vec<Station<P>>
    requires len { length passes.items ≡ vec_len seats }
    requires room { (vec_len room ≡ 0) × (vec_len seats ≤ vec_capacity room) }
    ensures len { vec_len result ≡ vec_len seats }
    ensures each { (k : ℕ) (s : _) (p : _) (d : _) → k < vec_len seats
        → IsStationOf (slice_index_or (vec_items seats) k s) (slice_index_or passes.items k p)
        (slice_index_or (vec_items result) k d) }
{
    let mut stations = room;
    let mut left = passes;
    for seat in seats {
        let passes = take_first(&mut left);
        put(&mut stations, station(seat, passes));
    }
    stations
}

// The seat at its channel. Its job and its last result are dropped.
fn station<P: Provider>(seat: Seat<P>, passes: SeatPasses) -> Station<P>
    ensures { IsStationOf seat passes result }
{
    let Seat { provider, job, got } = seat;
    let_go((job, got));
    let SeatPasses {
        number,
        driver,
        orders,
        results,
    } = passes;
    let before = Snapshot::of(&provider);
    let worker = Worker {
        number,
        before,
        provider,
        orders,
        results,
    };
    Station {
        orders: driver,
        worker,
    }
}
