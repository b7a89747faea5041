// The seats as their driver sees them.

ghost use Rattle.std.specs.Prelude.{◌≡◌, ℕ, vec_len, vec_items};
ghost use Rattle.crossbeam_channel.specs.Claims.{view};
ghost use Rattle.crew_workers.specs.Posts.{AreDismissed, marks};
ghost use Rattle.seat_calls.specs.Dones.{Made};
ghost use Rattle.worker_crew.specs.Rigs.{IsRigged, sent_at};

use crew_channels::{DonePass, Order, receive_done};
use crew_seating::Ends;
use crew_workers::{Post, SeatPromise, command, dismiss};
use driver_loop::Crew;
use provider_trait::Job;
use seat_calls::{Done, Serves};
use std::alloc::Global;
use std::collections::LinkedList;
use std::sync::Wait;

/// The seats as their driver sees them: the channels, and what it knows of each seat.
#[derive(Drop)]
pub struct Rig<'a, P: Drop> {
    /// For the calls of seats without a thread.
    pub alloc: Global,
    /// The channels.
    pub ends: &'a Ends,
    /// The seats, in their order.
    pub posts: Vec<Post<P>>,
    /// What the driver knows of the shared channel.
    pub results: DonePass,
}

impl<'a, P: Serves> Crew for Rig<'a, P> {
    type Fixed = (&'a Ends, LinkedList<(P, Option<SeatPromise<P>>)>);

    ghost use Rattle.std.specs.Prelude.{vec_len, vec_items, ◌≡◌, ◌++◌, ◌∷◌, [], ◌<◌, ℕ};
    ghost use Rattle.crossbeam_channel.specs.Claims.{view};
    ghost use Rattle.seat_calls.specs.Dones.{Made};
    ghost use Rattle.crew_workers.specs.Posts.{marks};
    ghost use Rattle.worker_crew.specs.Rigs.{IsRigged, sent_at};

    ghost fixed = { λ e. (e.ends, marks (vec_items e.posts)) };

    ghost seats = { λ e. vec_len e.posts };

    ghost is_ready = { λ e. IsRigged (Made P.may P.tells P.calls P.faults) e.ends.now
        (vec_items e.posts) e.results };

    ghost sent = { λ e k. sent_at (vec_items e.posts) k };

    ghost received = { λ e. (view e.results).got };

    fn send<R: Wait>(&mut self, rt: &R, worker: u32, job: Job) {
        let at = worker as usize;
        command(
            rt,
            self.alloc,
            &self.ends.channels[at],
            &self.ends.to,
            &mut self.posts[at],
            Order::Run(job),
        );
    }

    fn receive<R: Wait>(&mut self, rt: &R) -> Done {
        receive_done(rt, &self.ends.from, &mut self.results)
    }
}

/// Sends `Stop` to each worker in a thread of its own.
pub(crate) fn dismiss_all<R: Wait, P: Serves>(
    rt: &R,
    ends: &Ends,
    posts: Vec<Post<P>>,
    pass: &DonePass,
) -> Vec<Post<P>>
    requires ready { IsRigged (Made P.may P.tells P.calls P.faults) ends.now (vec_items posts)
        pass.now }
    ensures len { vec_len result ≡ vec_len posts }
    ensures ready { IsRigged (Made P.may P.tells P.calls P.faults) ends.now (vec_items result)
        pass.now }
    ensures marks { marks (vec_items result) ≡ marks (vec_items posts) }
    ensures sent { (k : ℕ) → sent_at (vec_items result) k ≡ sent_at (vec_items posts) k }
    ensures dismissed { AreDismissed (vec_items result) }
{
    let mut posts_left = posts;
    for at in 0..posts_left.len() {
        dismiss(rt, &ends.channels[at], &ends.to, &mut posts_left[at]);
    }
    posts_left
}
