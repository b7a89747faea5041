// The workers of all seats come back.

ghost use Rattle.std.specs.Prelude.{vec_len, vec_items, vec_capacity};
ghost use Rattle.crew_workers.specs.Posts.{HaveGiven, marks};
ghost use Rattle.crew_workers.specs.Threads.{HasThreads, IsRoom};
ghost use Rattle.seat_calls.specs.Dones.{Made};

use crate::post::{Post, Station};
use crate::room::{put, take_first};
use crate::seat_thread::{SeatThread, finish};
use seat_calls::Serves;
use std::collections::VecDeque;
use std::thread::Threads;

/// Waits until each worker has come back, in order. They are put into the room.
pub(crate) fn gather<R: Threads, P: Serves>(
    rt: &R,
    posts: Vec<Post<P>>,
    threads: VecDeque<SeatThread<P>>,
    room: Vec<Station<P>>,
) -> Vec<Station<P>>
    requires room { IsRoom (vec_len room) (vec_capacity room) (vec_len posts) }
    requires threads { HasThreads (marks (vec_items posts)) threads.items }
    ensures { HaveGiven (Made P.may P.tells P.calls P.faults) (vec_items posts) (vec_items result) }
{
    let mut stations = room;
    let mut left = threads;
    for post in posts {
        let thread = take_first(&mut left);
        let station = finish(rt, post, thread);
        put(&mut stations, station);
    }
    stations
}
