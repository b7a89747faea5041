// Seats at their channels are driven.

ghost use Rattle.std.specs.Prelude.{◌≡◌, ◌<◌, ◌≤◌, ◌^◌, length, vec_items};
ghost use Rattle.dealer_trait.specs.Steps.{NoneBegun};
ghost use Rattle.driver_loop.specs.Moments.{pages};
ghost use Rattle.seat_calls.specs.Dones.{Made};
ghost use Rattle.worker_crew.specs.Driven.{HasFinished};
ghost use Rattle.crew_seating.specs.Opened.{AreSetUp};
ghost use Rattle.worker_crew.specs.Rooms.{AreRooms};

use crate::rooms::Rooms;
use crate::tasking::Driving;
use crew_channels::DonePass;
use crew_seating::{Ends, close};
use crew_workers::{Station, crew};
use dealer_trait::{Book, Dealer};
use driver_loop::Ended;
use provider_trait::Provider;
use seat_calls::Seat;
use std::alloc::Global;
use std::sync::Wait;
use std::thread::Threads;

// Ends a borrow: what it shows is kept.
fn take_back<G>(board: &mut G)
    ensures { board.new ≡ board.old }
{}

/// Drives the seats until the dealer has come to its end or something fails. The seats come back in
/// their order, without jobs.
pub(crate) fn drive_stations<R: Threads + Wait + Sync, G: Dealer, P: Provider, B: Book>(
    rt: &R,
    alloc: Global,
    board: &mut G,
    book: &mut B,
    ends: &Ends,
    results: DonePass,
    stations: Vec<Station<P>>,
    rooms: Rooms<P>,
) -> (Vec<Seat<P>>, Ended)
    requires few { (0 < length (vec_items stations)) × (length (vec_items stations) ≤ 2 ^ 32) }
    requires rooms { AreRooms (length (vec_items stations)) rooms }
    requires set_up { AreSetUp (Made P.may P.tells P.calls P.faults) ends.now results
        (vec_items stations) }
    requires none { NoneBegun (G.steps board.old) }
    ensures stays { G.fixed board.new ≡ G.fixed board.old }
    ensures drove { HasFinished (Made P.may P.tells P.calls P.faults) (G.is_end board.new) B.tells
        (G.steps board.old) (G.steps board.new)
        (pages B.notes B.refusals B.first B.faults B.is_broken book.old)
        (pages B.notes B.refusals B.first B.faults B.is_broken book.new)
        (vec_items stations) (vec_items result.0) result.1 }
{
    let (board_back, seats, ended) = drive_booked(
        rt, alloc, board, book, ends, results, stations, rooms,
    );
    take_back(board_back);
    (seats, ended)
}

// The same, which hands back the dealer.
fn drive_booked<'a, R: Threads + Wait + Sync, G: Dealer, P: Provider, B: Book>(
    rt: &R,
    alloc: Global,
    board: &'a mut G,
    book: &mut B,
    ends: &Ends,
    results: DonePass,
    stations: Vec<Station<P>>,
    rooms: Rooms<P>,
) -> (&'a mut G, Vec<Seat<P>>, Ended)
    requires few { (0 < length (vec_items stations)) × (length (vec_items stations) ≤ 2 ^ 32) }
    requires rooms { AreRooms (length (vec_items stations)) rooms }
    requires set_up { AreSetUp (Made P.may P.tells P.calls P.faults) ends.now results
        (vec_items stations) }
    requires none { NoneBegun (G.steps board.now) }
    ensures name { result.0.ghost_name ≡ board.entry.ghost_name }
    ensures stays { G.fixed result.0.now ≡ G.fixed board.entry.now }
    ensures drove { HasFinished (Made P.may P.tells P.calls P.faults) (G.is_end result.0.now)
        B.tells (G.steps board.entry.now) (G.steps result.0.now)
        (pages B.notes B.refusals B.first B.faults B.is_broken book.old)
        (pages B.notes B.refusals B.first B.faults B.is_broken book.new)
        (vec_items stations) (vec_items result.1) result.2 }
{
    let (board_back, book_back, seats, ended) = drive_lent(
        rt, alloc, board, book, ends, results, stations, rooms,
    );
    take_back(book_back);
    (board_back, seats, ended)
}

// The same, which hands back the dealer and the book.
fn drive_lent<'a, 'b, R: Threads + Wait + Sync, G: Dealer, P: Provider, B: Book>(
    rt: &R,
    alloc: Global,
    board: &'a mut G,
    book: &'b mut B,
    ends: &Ends,
    results: DonePass,
    stations: Vec<Station<P>>,
    rooms: Rooms<P>,
) -> (&'a mut G, &'b mut B, Vec<Seat<P>>, Ended)
    requires few { (0 < length (vec_items stations)) × (length (vec_items stations) ≤ 2 ^ 32) }
    requires rooms { AreRooms (length (vec_items stations)) rooms }
    requires set_up { AreSetUp (Made P.may P.tells P.calls P.faults) ends.now results
        (vec_items stations) }
    requires none { NoneBegun (G.steps board.now) }
    ensures names { (result.0.ghost_name ≡ board.entry.ghost_name)
        × (result.1.ghost_name ≡ book.entry.ghost_name) }
    ensures stays { G.fixed result.0.now ≡ G.fixed board.entry.now }
    ensures drove { HasFinished (Made P.may P.tells P.calls P.faults) (G.is_end result.0.now)
        B.tells (G.steps board.entry.now) (G.steps result.0.now)
        (pages B.notes B.refusals B.first B.faults B.is_broken book.entry.now)
        (pages B.notes B.refusals B.first B.faults B.is_broken result.1.now)
        (vec_items stations) (vec_items result.2) result.3 }
{
    let Rooms {
        posts,
        threads,
        back,
        seats,
        opens,
    } = rooms;
    let channels = ends.channels.as_slice();
    let driving = Driving {
        alloc,
        board,
        book,
        ends,
        results,
        opens,
    };
    let (backs, (board_back, book_back, results, ended)) = crew(
        rt, alloc, channels, &ends.to, stations, posts, threads, back, driving,
    );
    (
        board_back,
        book_back,
        close(channels, &ends.to, results, backs, seats),
        ended,
    )
}
