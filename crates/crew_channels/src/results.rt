// The channel that all seats share, by which the driver gets what they have done.

ghost use Rattle.std.specs.Prelude.{◌≡◌, ◌<◌, ◌≤◌, ◌+◌, ◌++◌, ◌∷◌, [], ℕ, List, true, false, IfOk};
ghost use Rattle.crossbeam_channel.specs.Claims.{view, IsSeatAt};
ghost use Rattle.crossbeam_channel.specs.Ends.{sends_on, receives_on};
ghost use Rattle.crew_channels.specs.Results.{results};
ghost use Rattle.seat_calls.specs.Dones.{of};
ghost use Rattle.seat_calls.specs.declared.done.Done.{Done};

use arm_value::OutOfMemory;
use crossbeam_channel::protocol::{Join, Lesson, Outcome, Protocol, Split};
use crossbeam_channel::{Pass, RuledReceiver, RuledSender, SendError, bounded_with};
use seat_calls::Done;
use std::alloc::Global;
use std::collections::LinkedList;
use std::sync::Wait;
use std::thread;

/// What the holder of a pass may do, and has done. No value of it is made.
///
/// One that receives, as the driver does, has made the passes of the first `made` seats. One that
/// sends has sent all that its seat has sent.
pub struct Results {
    /// Whether it receives.
    pub receives: bool,
    /// Whether it sends.
    pub sends: bool,
    /// How many seats have a pass.
    pub made: u32,
    /// The number of the seat that sends.
    pub worker: u32,
    /// What the seat has sent, oldest first.
    pub sent: LinkedList<Done>,
    /// What was received of all seats, oldest first.
    pub got: LinkedList<Done>,
}

/// The rule of the channel: what a seat has sent is what was received of it, and then what the
/// channel holds of it.
pub struct BySeat;

impl Protocol<Done, Results> for BySeat {
    ghost use Rattle.std.specs.Prelude.{true, false, []};
    ghost use Rattle.crew_channels.specs.Results.{results, AreBySeat};

    ghost holds = { AreBySeat };

    ghost first = { results true false 0 0 [] [] };
}

// A result was sent.
struct Sent;

impl Outcome<Done, Results> for Sent {
    ghost then = { λ v x w. w ≡ results v.receives v.sends v.made v.worker (v.sent ++ x ∷ []) v.got };
}

impl Lesson<Done, Results> for Sent {
    ghost fact = { λ v items. Unit {0} };
}

// A result was received.
struct Received;

impl Outcome<Done, Results> for Received {
    ghost then = { λ v x w. w ≡ results v.receives v.sends v.made v.worker v.sent (v.got ++ x ∷ []) };
}

impl Lesson<Done, Results> for Received {
    ghost fact = { λ v items. Unit {0} };
}

// The driver's pass makes that of the next seat. After it has taken a seat's pass back it is also that
// seat's, and shows what the channel holds of it.
struct Seated;

impl Split<Results> for Seated {
    ghost left = { λ v. results true false (v.made + 1) 0 [] v.got };

    ghost right = { λ v. results false true 0 v.made [] [] };
}

impl Join<Results> for Seated {
    ghost both = { λ v w. results true true v.made w.worker w.sent v.got };

    ghost spent = { results false false 0 0 [] [] };
}

impl Lesson<Done, Results> for Seated {
    ghost fact = { λ v items. (of v.worker (v.got ++ items) ≡ v.sent)
        × ((k : ℕ) → v.made ≤ k → of k (v.got ++ items) ≡ []) };
}

/// A seat's end of the channel.
pub type DoneSender = RuledSender<Done, Results, BySeat>;

/// The driver's end of the channel.
pub type DoneReceiver = RuledReceiver<Done, Results, BySeat>;

/// What a thread knows of the channel.
pub type DonePass = Pass<Done, Results>;

/// The channel for so many results, with the driver's pass.
pub fn open_results(
    alloc: Global,
    seats: usize,
) -> Result<(DoneSender, DoneReceiver, DonePass), OutOfMemory>
    requires { 0 < seats }
    ensures ends { IfOk result (λ r. receives_on r.1 ≡ sends_on r.0) }
    ensures pass { IfOk result (λ r. IsSeatAt (sends_on r.0) r.2
        × (view r.2 ≡ results true false 0 0 [] [])) }
{
    bounded_with::<Done, Results, BySeat, Global>(alloc, seats)
}

/// The pass of the next seat.
pub fn seat_pass(to: &DoneSender, pass: &mut DonePass) -> DonePass
    requires { IsSeatAt (sends_on to.now) pass.old × ((view pass.old).receives ≡ true) }
    ensures driver { IsSeatAt (sends_on to.now) pass.new
        × (view pass.new ≡ results true false ((view pass.old).made + 1) 0 [] (view pass.old).got) }
    ensures seat { IsSeatAt (sends_on to.now) result
        × (view result ≡ results false true 0 (view pass.old).made [] []) }
{
    to.another::<Seated>(pass)
}

/// Sends a result of the pass's seat. It waits until the channel has room.
pub fn send_done<R: Wait>(rt: &R, to: &DoneSender, pass: &mut DonePass, done: Done)
    requires seat { IsSeatAt (sends_on to.now) pass.old }
    requires role { ((view pass.old).sends ≡ true) × ((view pass.old).receives ≡ false) }
    requires own { done.worker ≡ (view pass.old).worker }
    ensures seat { IsSeatAt (sends_on to.now) pass.new }
    ensures sent { view pass.new ≡ results false true (view pass.old).made (view pass.old).worker
        ((view pass.old).sent ++ done ∷ []) (view pass.old).got }
{
    let mut unsent = done;
    for _ in rt.forever() {
        match to.send_as::<Sent, R>(rt, pass, unsent) {
            Ok(()) => return,
            Err(SendError::Disconnected(back)) => unsent = back,
            Err(SendError::OutOfMemory(back)) => unsent = back,
        }
        thread::yield_now();
    }
    unreachable!()
}

/// Waits for the next result of any seat.
pub fn receive_done<R: Wait>(rt: &R, from: &DoneReceiver, pass: &mut DonePass) -> Done
    requires { IsSeatAt (receives_on from.now) pass.old × ((view pass.old).receives ≡ true) }
    ensures seat { IsSeatAt (receives_on from.now) pass.new }
    ensures got { view pass.new ≡ results (view pass.old).receives (view pass.old).sends
        (view pass.old).made (view pass.old).worker (view pass.old).sent
        ((view pass.old).got ++ result ∷ []) }
{
    for _ in rt.forever() {
        if let Ok(done) = from.recv_as::<Received, R>(rt, pass) {
            return done;
        }
        thread::yield_now();
    }
    unreachable!()
}

/// Takes a seat's pass back: what the seat has sent is what was received of it, and then what the
/// channel still holds of it. Nothing was sent by a seat that has no pass.
pub fn rejoin_results(to: &DoneSender, pass: &mut DonePass, seat: DonePass)
    requires seats { IsSeatAt (sends_on to.now) pass.old × IsSeatAt (sends_on to.now) seat }
    requires roles { ((view pass.old).receives ≡ true) × ((view seat).sends ≡ true) }
    ensures seat { IsSeatAt (sends_on to.now) pass.new }
    ensures role { ((view pass.new).receives ≡ true) × ((view pass.new).made ≡ (view pass.old).made) }
    ensures got { (view pass.new).got ≡ (view pass.old).got }
    ensures left { (held : List Done)
        × (of (view seat).worker ((view pass.old).got ++ held) ≡ (view seat).sent)
        × ((k : ℕ) → (view pass.old).made ≤ k → of k ((view pass.old).got ++ held) ≡ []) }
{
    to.absorb::<Seated>(pass, seat);
    to.learn_as::<Seated>(pass);
}
