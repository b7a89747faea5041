// The driver of a crew.

ghost use Rattle.std.specs.Prelude.{◌≡◌, ◌<◌, ◌≤◌, ℕ, IfOk, vec_len, vec_items};
ghost use Rattle.std.specs.Prelude.{slice_index_or, vec_capacity};
ghost use Rattle.arm_edges.specs.Faults.{Rose};
ghost use Rattle.dealer_trait.specs.Steps.{NoneBegun};
ghost use Rattle.driver_loop.specs.Moments.{pages};
ghost use Rattle.dealer_trait.specs.declared.book_fault.BookFault.{BookFault};
ghost use Rattle.seat_calls.specs.Dones.{Made};
ghost use Rattle.worker_crew.specs.Driven.{HasDriven, HasEnded, HasNoJobs, HasRefused};
ghost use Rattle.worker_crew.specs.Driven.{by_seat, by_book};
ghost use Rattle.crew_seating.specs.Opened.{IsOpen};
ghost use Rattle.worker_crew.specs.Rooms.{AreRooms};

use crate::driving::drive_stations;
use crate::rooms::{Rooms, open_rooms, run_out};
use arm_value::OutOfMemory;
use crew_seating::{Opened, open_channels, station_all};
use crew_workers::{Station, let_go};
use dealer_trait::{Book, Dealer};
use driver_loop::{DriveFault, Ended};
use provider_trait::Provider;
use seat_calls::Seat;
use std::alloc::Global;
use std::mem;
use std::sync::Wait;
use std::thread::Threads;

/// Asks the dealer for jobs, and hands each to a free seat, whose provider is called with it while the
/// other seats are at work. Each answer is noted in the book, and the dealer is given it only where the note was taken.
/// It goes on until the dealer answers `End`. It may wait.
///
/// There are 1 to 4,294,967,295 seats, numbered from 0; none has a job, and the dealer has no open
/// Begin. Whatever is returned, the same seats come back in their order, none with a job, and no Begin
/// is open.
///
/// # Errors
///
/// `Provider` with the number of a seat whose provider failed: its count of faults rose. `Book` with
/// the first note that was refused in this call: `DiskFault` only where the book's count of faults
/// rose, `MustReopen` only where the book was broken before. `OutOfMemory` where memory for the seats'
/// channels, the dealer or a provider ran out. After the first Back of this call nothing more is begun,
/// and an error is returned after all open jobs have come in.
pub fn drive<R: Threads + Wait + Sync, G: Dealer, P: Provider, B: Book>(
    rt: &R,
    alloc: Global,
    board: &mut G,
    seats: &mut Vec<Seat<P>>,
    book: &mut B,
) -> Result<(), DriveFault>
    requires few { (0 < vec_len seats.old) × (vec_len seats.old ≤ 4294967295) }
    requires free { HasNoJobs (vec_items seats.old) }
    requires none { NoneBegun (G.steps board.old) }
    ensures free { HasNoJobs (vec_items seats.new) }
    ensures stays { G.fixed board.new ≡ G.fixed board.old }
    ensures drove { HasDriven (Made P.may P.tells P.calls P.faults) (G.is_end board.new) B.tells
        (G.steps board.old) (G.steps board.new)
        (pages B.notes B.refusals B.first B.faults B.is_broken book.old)
        (pages B.notes B.refusals B.first B.faults B.is_broken book.new)
        (vec_items seats.old) (vec_items seats.new) result }
    ensures failed { (k : ℕ) → result ≡ by_seat k → (k < vec_len seats.old)
        × ((s : _) (t : _) → Rose (P.faults (slice_index_or (vec_items seats.old) k s).provider)
        (P.faults (slice_index_or (vec_items seats.new) k t).provider)) }
    ensures refused { (f : BookFault) → result ≡ by_book f → HasRefused
        (pages B.notes B.refusals B.first B.faults B.is_broken book.old)
        (pages B.notes B.refusals B.first B.faults B.is_broken book.new) f }
{
    drive_all(rt, alloc, board, seats, book)
}

// The same. What follows where the provider of a seat or the book is blamed is left to the caller.
fn drive_all<R: Threads + Wait + Sync, G: Dealer, P: Provider, B: Book>(
    rt: &R,
    alloc: Global,
    board: &mut G,
    seats: &mut Vec<Seat<P>>,
    book: &mut B,
) -> Result<(), DriveFault>
    requires few { (0 < vec_len seats.old) × (vec_len seats.old ≤ 4294967295) }
    requires free { HasNoJobs (vec_items seats.old) }
    requires none { NoneBegun (G.steps board.old) }
    ensures free { HasNoJobs (vec_items seats.new) }
    ensures stays { G.fixed board.new ≡ G.fixed board.old }
    ensures drove { HasDriven (Made P.may P.tells P.calls P.faults) (G.is_end board.new) B.tells
        (G.steps board.old) (G.steps board.new)
        (pages B.notes B.refusals B.first B.faults B.is_broken book.old)
        (pages B.notes B.refusals B.first B.faults B.is_broken book.new)
        (vec_items seats.old) (vec_items seats.new) result }
{
    let Ok(count) = u32::try_from(seats.len()) else {
        unreachable!()
    };
    let Ok((opened, stations, rooms)) = prepare(alloc, count) else {
        return Err(DriveFault::OutOfMemory);
    };
    let taken = mem::replace(seats, Vec::new(alloc));
    let (back, ended) = drive_seats(rt, alloc, board, book, taken, opened, stations, rooms);
    let_go(mem::replace(seats, back));
    match ended {
        Ended::Well => Ok(()),
        Ended::Failed(fault) => Err(fault),
        Ended::Stray => unreachable!(),
    }
}

// What a drive takes before a seat is moved: channels that are open, and room for all seats.
type Prepared<P> = (Opened, Vec<Station<P>>, Rooms<P>);

fn prepare<P: Provider>(alloc: Global, seats: u32) -> Result<Prepared<P>, OutOfMemory>
    requires { 0 < seats }
    ensures { IfOk result (λ r. IsOpen seats r.0 × (vec_len r.1 ≡ 0) × (seats ≤ vec_capacity r.1)
        × AreRooms seats r.2) }
{
    let opened = open_channels(alloc, seats)?;
    let Ok(stations) = Vec::with_capacity(alloc, seats as usize) else {
        return run_out(opened);
    };
    match open_rooms(alloc, seats) {
        Ok(rooms) => Ok((opened, stations, rooms)),
        Err(_) => run_out((opened, stations)),
    }
}

// Drives the seats over channels that are open.
fn drive_seats<R: Threads + Wait + Sync, G: Dealer, P: Provider, B: Book>(
    rt: &R,
    alloc: Global,
    board: &mut G,
    book: &mut B,
    seats: Vec<Seat<P>>,
    opened: Opened,
    room: Vec<Station<P>>,
    rooms: Rooms<P>,
) -> (Vec<Seat<P>>, Ended)
    requires few { (0 < vec_len seats) × (vec_len seats ≤ 4294967295) }
    requires channels { IsOpen (vec_len seats) opened }
    requires room { (vec_len room ≡ 0) × (vec_len seats ≤ vec_capacity room) }
    requires rooms { AreRooms (vec_len seats) rooms }
    requires none { NoneBegun (G.steps board.old) }
    ensures free { HasNoJobs (vec_items result.0) }
    ensures stays { G.fixed board.new ≡ G.fixed board.old }
    ensures drove { HasEnded (Made P.may P.tells P.calls P.faults) (G.is_end board.new) B.tells
        (G.steps board.old) (G.steps board.new)
        (pages B.notes B.refusals B.first B.faults B.is_broken book.old)
        (pages B.notes B.refusals B.first B.faults B.is_broken book.new)
        (vec_items seats) (vec_items result.0) result.1 }
{
    let Opened {
        ends,
        results,
        passes,
    } = opened;
    let stations = station_all(seats, passes, room);
    drive_stations(rt, alloc, board, book, &ends, results, stations, rooms)
}
