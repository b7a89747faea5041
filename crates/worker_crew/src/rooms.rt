// Room for all seats while they are at work.

ghost use Rattle.std.specs.Prelude.{◌≡◌, None, [], IfOk, replicate, vec_len, vec_capacity};
ghost use Rattle.std.specs.VecDeque.{deque_len, deque_capacity};
ghost use Rattle.crew_workers.specs.Threads.{IsRoom};
ghost use Rattle.worker_crew.specs.Rooms.{AreRooms};

use arm_value::OutOfMemory;
use crew_workers::{Post, SeatThread, Station};
use driver_loop::OpenJob;
use seat_calls::{Seat, Serves};
use std::alloc::{AllocError, Global};
use std::collections::VecDeque;

/// Room for all seats while they are at work, and the open jobs of all seats: none yet.
#[derive(Drop)]
pub struct Rooms<P: Serves> {
    /// Room for the seats that are started.
    pub posts: Vec<Post<P>>,
    /// Room for their threads.
    pub threads: VecDeque<SeatThread<P>>,
    /// Room for the seats that have come back.
    pub back: Vec<Station<P>>,
    /// Room for the seats as the caller gets them.
    pub seats: Vec<Seat<P>>,
    /// The open job of each seat.
    pub opens: Vec<Option<OpenJob>>,
}

/// Room for so many seats.
pub(crate) fn open_rooms<P: Serves>(alloc: Global, seats: u32) -> Result<Rooms<P>, OutOfMemory>
    ensures { IfOk result (AreRooms seats) }
{
    let starts = room_to_start(alloc, seats)?;
    let Ok(ends) = room_to_end(alloc, seats) else {
        return run_out(starts);
    };
    match no_jobs(alloc, seats) {
        Ok(opens) => Ok(rooms_of(starts, ends, opens)),
        Err(_) => run_out((starts, ends)),
    }
}

// Room for the seats that are started, and for their threads.
type Starts<P> = (Vec<Post<P>>, VecDeque<SeatThread<P>>);

// Room for the seats that have come back, and for them as the caller gets them.
type Returns<P> = (Vec<Station<P>>, Vec<Seat<P>>);

fn room_to_start<P: Serves>(alloc: Global, seats: u32) -> Result<Starts<P>, OutOfMemory>
    ensures { IfOk result (λ r. IsRoom (vec_len r.0) (vec_capacity r.0) seats
        × IsRoom (deque_len r.1) (deque_capacity r.1) seats × (r.1.items ≡ [])) }
{
    let posts = Vec::with_capacity(alloc, seats as usize)?;
    match VecDeque::with_capacity(alloc, seats as usize) {
        Ok(threads) => Ok((posts, threads)),
        Err(_) => run_out(posts),
    }
}

fn room_to_end<P: Serves>(alloc: Global, seats: u32) -> Result<Returns<P>, OutOfMemory>
    ensures { IfOk result (λ r. IsRoom (vec_len r.0) (vec_capacity r.0) seats
        × IsRoom (vec_len r.1) (vec_capacity r.1) seats) }
{
    let back = Vec::with_capacity(alloc, seats as usize)?;
    match Vec::with_capacity(alloc, seats as usize) {
        Ok(chairs) => Ok((back, chairs)),
        Err(_) => run_out(back),
    }
}

fn rooms_of<P: Serves>(starts: Starts<P>, ends: Returns<P>, opens: Vec<Option<OpenJob>>) -> Rooms<P>
    ensures posts { result.posts ≡ starts.0 }
    ensures threads { result.threads ≡ starts.1 }
    ensures back { result.back ≡ ends.0 }
    ensures seats { result.seats ≡ ends.1 }
    ensures opens { result.opens ≡ opens }
{
    let (posts, threads) = starts;
    let (back, seats) = ends;
    Rooms {
        posts,
        threads,
        back,
        seats,
        opens,
    }
}

// Out of memory; the part is dropped.
pub(crate) fn run_out<T: Drop, R>(_part: T) -> Result<R, OutOfMemory>
    ensures { IfOk result (λ _. ⊥) }
{
    Err(AllocError)
}

// The open jobs of so many seats: none.
fn no_jobs(alloc: Global, seats: u32) -> Result<Vec<Option<OpenJob>>, OutOfMemory>
    ensures { IfOk result (λ opens. opens.items ≡ replicate seats None) }
{
    let mut opens = Vec::new(alloc);
    for seat in 0..seats {
        let Ok(()) = opens.push(None) else {
            return Err(AllocError);
        };
    }
    Ok(opens)
}
