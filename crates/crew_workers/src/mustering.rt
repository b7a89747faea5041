// The workers of all seats are started.

ghost use Rattle.std.specs.Prelude.{◌≡◌, ◌<◌, ◌+◌, ◌++◌, ◌∷◌, [], ℕ, length, vec_len, vec_items, vec_capacity};
ghost use Rattle.std.specs.Prelude.{slice_index_or};
ghost use Rattle.std.specs.VecDeque.{deque_len, deque_capacity};
ghost use Rattle.crossbeam_channel.specs.Ends.{sends_on};
ghost use Rattle.crew_workers.specs.Posts.{AreStationed, ArePosted, marks};
ghost use Rattle.crew_workers.specs.Threads.{HasThreads, IsRoom};
ghost use Rattle.seat_calls.specs.Dones.{Made};

use crate::channel::SeatChannel;
use crate::post::{Post, Station};
use crate::room::put;
use crate::seat_thread::{SeatThread, Started, start};
use crew_channels::DoneSender;
use seat_calls::Serves;
use std::alloc::Global;
use std::collections::VecDeque;
use std::sync::Wait;
use std::thread::{Scope, Threads};

/// Starts each seat, in order. The posts and the threads are put into the rooms.
pub(crate) fn muster<'s, E, R: Threads + Wait + Sync, P: Serves + Send + 's>(
    rt: &'s R,
    alloc: Global,
    scope: &Scope<'s, E>,
    channels: &'s [SeatChannel],
    to: &'s DoneSender,
    stations: Vec<Station<P>>,
    room: Vec<Post<P>>,
    threads_room: VecDeque<SeatThread<P>>,
) -> (Vec<Post<P>>, VecDeque<SeatThread<P>>)
    requires len { vec_len stations ≡ length channels.now }
    requires room { IsRoom (vec_len room) (vec_capacity room) (vec_len stations) }
    requires threads_room { IsRoom (deque_len threads_room) (deque_capacity threads_room)
        (vec_len stations) }
    requires none { threads_room.items ≡ [] }
    requires ready { AreStationed (Made P.may P.tells P.calls P.faults) channels.now
        (sends_on to.now) (vec_items stations) }
    ensures posted { ArePosted (Made P.may P.tells P.calls P.faults) channels.now (sends_on to.now)
        (vec_items stations) (vec_items result.0) }
    ensures threads { HasThreads (marks (vec_items result.0)) result.1.items }
{
    let mut posts = room;
    let mut threads = threads_room;
    for station in stations {
        let at = posts.len();
        let started = start(rt, alloc, scope, &channels[at], to, station);
        add(&mut posts, &mut threads, started);
    }
    (posts, threads)
}

// Adds a seat that was started to lists that have room for it.
fn add<P: Serves>(
    posts: &mut Vec<Post<P>>,
    threads: &mut VecDeque<SeatThread<P>>,
    started: Started<P>,
)
    requires posts { vec_len posts.old < vec_capacity posts.old }
    requires threads { deque_len threads.old < deque_capacity threads.old }
    ensures items { vec_items posts.new ≡ vec_items posts.old ++ started.post ∷ [] }
    ensures len { vec_len posts.new ≡ vec_len posts.old + 1 }
    ensures before { (k : ℕ) (d : _) → k < vec_len posts.old
        → slice_index_or (vec_items posts.new) k d ≡ slice_index_or (vec_items posts.old) k d }
    ensures last { (d : _) → slice_index_or (vec_items posts.new) (vec_len posts.old) d
        ≡ started.post }
    ensures threads { threads.new.items ≡ threads.old.items ++ started.thread ∷ [] }
    ensures threads_len { deque_len threads.new ≡ deque_len threads.old + 1 }
    ensures capacity { (vec_capacity posts.new ≡ vec_capacity posts.old)
        × (deque_capacity threads.new ≡ deque_capacity threads.old) }
{
    let Started { post, thread } = started;
    put(posts, post);
    threads.push_back_reserved(thread);
}
