// Workers in one scope, beside what their driver does.

ghost use Rattle.std.specs.Prelude.{◌≡◌, List, vec_len, vec_items, vec_capacity};
ghost use Rattle.std.specs.Thread.{IsSync};
ghost use Rattle.std.specs.VecDeque.{deque_len, deque_capacity};
ghost use Rattle.crossbeam_channel.specs.Ends.{sends_on};
ghost use Rattle.crew_workers.specs.Posts.{ArePosted, HaveGiven, marks};
ghost use Rattle.crew_workers.specs.Threads.{IsRoom, MayRun};
ghost use Rattle.crew_workers.specs.declared.post.Post.{Post};
ghost use Rattle.seat_calls.specs.Dones.{Made};

use crate::channel::SeatChannel;
use crate::gathering::gather;
use crate::mustering::muster;
use crate::post::{Post, Station};
use crate::seat_thread::SeatThread;
use crew_channels::DoneSender;
use seat_calls::Serves;
use std::alloc::Global;
use std::collections::VecDeque;
use std::sync::Wait;
use std::thread;
use std::thread::Threads;

/// What a driver does while the workers run. It is a value of a type parameter, so what it writes
/// through a borrow is kept.
pub trait Task<P: Drop> {
    ghost use Rattle.std.specs.Prelude.{◌≡◌, List, vec_len, vec_items};
    ghost use Rattle.crew_workers.specs.Posts.{AreDismissed, marks};
    ghost use Rattle.crew_workers.specs.declared.post.Post.{Post};

    /// What the driver hands back.
    type Output;

    /// Whether it may run with these posts.
    ghost can_run: { Self → List (Post P) → Type 0 };

    /// What it hands back, and what became of the posts.
    ghost run_gives: { Self → List (Post P) → Self.Output → List (Post P) → Type 0 };

    /// Runs with the seats of these posts, and hands the posts back. No worker moves. The last order
    /// that it sends to each worker in a thread is `Stop`.
    fn run<R: Wait>(self, rt: &R, posts: Vec<Post<P>>) -> (Self::Output, Vec<Post<P>>)
        requires { can_run self (vec_items posts) }
        ensures len { vec_len result.1 ≡ vec_len posts }
        ensures kept { marks (vec_items result.1) ≡ marks (vec_items posts) }
        ensures dismissed { AreDismissed (vec_items result.1) }
        ensures gives { run_gives self (vec_items posts) result.0 (vec_items result.1) };
}

/// Starts all seats in one scope, runs the task beside them, and waits until they have come back. They
/// come back in their order.
pub fn crew<R: Threads + Wait + Sync, P: Serves + Send, T: Task<P> + Drop>(
    rt: &R,
    alloc: Global,
    channels: &[SeatChannel],
    to: &DoneSender,
    stations: Vec<Station<P>>,
    posts: Vec<Post<P>>,
    threads: VecDeque<SeatThread<P>>,
    room: Vec<Station<P>>,
    task: T,
) -> (Vec<Station<P>>, T::Output)
    requires may { MayRun (Made P.may P.tells P.calls P.faults) channels.now (sends_on to.now)
        (vec_items stations) (IsRoom (vec_len posts) (vec_capacity posts))
        (IsRoom (deque_len threads) (deque_capacity threads))
        (IsRoom (vec_len room) (vec_capacity room)) threads.items (T.can_run task) }
    ensures { (all : List (Post P)) × (left : List (Post P))
        × ArePosted (Made P.may P.tells P.calls P.faults) channels.now (sends_on to.now)
        (vec_items stations) all
        × T.run_gives task all result.1 left
        × (marks left ≡ marks all)
        × HaveGiven (Made P.may P.tells P.calls P.faults) left (vec_items result.0) }
{
    thread::scope(
        thread::scope_env(),
        rt,
        move |scope| -> (Vec<Station<P>>, T::Output)
            requires { IsSync R.row
                × MayRun (Made P.may P.tells P.calls P.faults) channels.now (sends_on to.now)
                (vec_items stations) (IsRoom (vec_len posts) (vec_capacity posts))
                (IsRoom (deque_len threads) (deque_capacity threads))
                (IsRoom (vec_len room) (vec_capacity room)) threads.items (T.can_run task) }
            ensures { (all : List (Post P)) × (left : List (Post P))
                × ArePosted (Made P.may P.tells P.calls P.faults) channels.entry.now
                (sends_on to.entry.now) (vec_items stations) all
                × T.run_gives task all result.1 left
                × (marks left ≡ marks all)
                × HaveGiven (Made P.may P.tells P.calls P.faults) left (vec_items result.0) }
        {
            let (posts, threads) = muster(rt, alloc, scope, channels, to, stations, posts, threads);
            let (output, posts) = task.run(rt, posts);
            (gather(rt, posts, threads, room), output)
        },
    )
}
