// What the driver does while the workers run.

use crate::rig::{Rig, dismiss_all};
use crew_channels::DonePass;
use crew_seating::Ends;
use crew_workers::{Post, Task};
use dealer_trait::{Book, Dealer};
use driver_loop::{Ended, OpenJob, run};
use seat_calls::Serves;
use std::alloc::Global;
use std::sync::Wait;

/// The driver's part, with what it borrows. It runs the loop, and then sends `Stop` to the workers.
#[derive(Drop)]
pub struct Driving<'a, 'b, 'c, G, B> {
    /// For the dealer, and for the calls of seats without a thread.
    pub alloc: Global,
    /// The dealer.
    pub board: &'a mut G,
    /// The book.
    pub book: &'b mut B,
    /// The channels.
    pub ends: &'c Ends,
    /// What the driver knows of the shared channel.
    pub results: DonePass,
    /// The open job of each seat.
    pub opens: Vec<Option<OpenJob>>,
}

impl<'a, 'b, 'c, G: Dealer, B: Book, P: Serves> Task<P> for Driving<'a, 'b, 'c, G, B> {
    type Output = (&'a mut G, &'b mut B, DonePass, Ended);

    ghost use Rattle.std.specs.Prelude.{◌≡◌, ◌≤◌, ◌^◌, ℕ, length, vec_items, vec_len};
    ghost use Rattle.crossbeam_channel.specs.Claims.{view};
    ghost use Rattle.driver_loop.specs.Moments.{moment, pages};
    ghost use Rattle.driver_loop.specs.Runs.{Tied};
    ghost use Rattle.seat_calls.specs.Dones.{Made};
    ghost use Rattle.crew_workers.specs.Posts.{AreDismissed, marks};
    ghost use Rattle.worker_crew.specs.Rigs.{IsRigged, sent_at};
    ghost use Rattle.worker_crew.specs.Tasks.{HasRunLoop};

    ghost can_run = { λ t posts. (length (vec_items t.opens) ≤ 2 ^ 32)
        × (length posts ≡ length (vec_items t.opens))
        × IsRigged (Made P.may P.tells P.calls P.faults) t.ends.now posts t.results
        × Tied (G.steps t.board.now) (vec_items t.opens) };

    ghost run_gives = { λ t posts r left. (r.0.ghost_name ≡ t.board.ghost_name)
        × (r.1.ghost_name ≡ t.book.ghost_name)
        × IsRigged (Made P.may P.tells P.calls P.faults) t.ends.now left r.2
        × HasRunLoop (G.is_end r.0.now) B.tells
        (moment (G.steps t.board.now) (view t.results).got (sent_at posts) (vec_items t.opens))
        (G.steps r.0.now) (view r.2).got (sent_at left)
        (pages B.notes B.refusals B.first B.faults B.is_broken t.book.now)
        (pages B.notes B.refusals B.first B.faults B.is_broken r.1.now) r.3
        × (G.fixed r.0.now ≡ G.fixed t.board.now) };

    fn run<R: Wait>(
        self,
        rt: &R,
        posts: Vec<Post<P>>,
    ) -> ((&'a mut G, &'b mut B, DonePass, Ended), Vec<Post<P>>)
        requires { (length (vec_items self.opens) ≤ 2 ^ 32)
            × (length (vec_items posts) ≡ length (vec_items self.opens))
            × IsRigged (Made P.may P.tells P.calls P.faults) self.ends.now (vec_items posts)
            self.results
            × Tied (G.steps self.board.now) (vec_items self.opens) }
        ensures len { vec_len result.1 ≡ vec_len posts }
        ensures kept { marks (vec_items result.1) ≡ marks (vec_items posts) }
        ensures dismissed { AreDismissed (vec_items result.1) }
        ensures gives { (result.0.0.ghost_name ≡ self.entry.board.ghost_name)
            × (result.0.1.ghost_name ≡ self.entry.book.ghost_name)
            × IsRigged (Made P.may P.tells P.calls P.faults) self.entry.ends.now
            (vec_items result.1) result.0.2
            × HasRunLoop (G.is_end result.0.0.now) B.tells
            (moment (G.steps self.entry.board.now) (view self.entry.results).got
            (sent_at (vec_items posts)) (vec_items self.entry.opens))
            (G.steps result.0.0.now) (view result.0.2).got (sent_at (vec_items result.1))
            (pages B.notes B.refusals B.first B.faults B.is_broken self.entry.book.now)
            (pages B.notes B.refusals B.first B.faults B.is_broken result.0.1.now) result.0.3
            × (G.fixed result.0.0.now ≡ G.fixed self.entry.board.now) }
    {
        let Driving {
            alloc,
            board,
            book,
            ends,
            results,
            mut opens,
        } = self;
        let mut rig = Rig {
            alloc,
            ends,
            posts,
            results,
        };
        let ended = run(rt, alloc, board, &mut rig, book, opens.as_mut_slice());
        let Rig { posts, results, .. } = rig;
        let posts = dismiss_all(rt, ends, posts, &results);
        ((board, book, results, ended), posts)
    }
}
