// The board.

ghost use Rattle.std.specs.Prelude.{◌≡◌, ◌<◌, ℕ, IfErr, IfOk, OnErr, Some, [], length, map};
ghost use Rattle.task_standings.specs.Seen.{IsSeen};
ghost use Rattle.deploy_core.specs.Opens.{AreStartNeeds};
ghost use Rattle.deploy_histories.specs.Events as event;
ghost use Rattle.deploy_histories.specs.Events.{at_opening, progress, IsBegun};
ghost use Rattle.deploy_histories.specs.Legal.{HasEnded, IsLegal, MayEnd};
ghost use Rattle.board_history.specs.Past.{event_of, with_event};
ghost use Rattle.board_dealing.specs.Boards.{IsNext, HasPassed};
ghost use Rattle.board_dealing.specs.Kept.{IsKept};
ghost use Rattle.board_replays.specs.Replays.{noted_of, IsReopened, IsBoardFault};
ghost use Rattle.deploy_core.specs.Endings.{IsTrueEnding};
ghost use Rattle.deploy_core.specs.Names.{name_of};

use crate::ending::{Ending, refused_ending, unrefused_ending};
use crate::naming::task_name;
use crate::opening::{Parts, first_parts};
use arm_value::{OutOfMemory, Text};
use board_dealing::dealing::{deal, give_back, is_refused, pause, take};
use board_history::{History, letting_go};
use board_replays::replaying::reopen;
use board_replays::{BoardFault, Noted};
use dealer_trait::Next;
use provider_trait::{Answer, Event};
use std::alloc::Global;
use std::marker::Model;
use task_agenda::Agenda;
use task_standings::Standings;

/// The tasks of a plan under way.
///
/// Contracts see what says how its tasks stand, and what has happened.
#[derive(Drop)]
pub struct Board<S: Standings> {
    standings: S,
    history: History,
    agenda: Agenda,
    // The events before this place were looked at.
    seen: usize,
}

impl<S: Standings> Model for Board<S> {
    ghost use Rattle.std.specs.Coded.{coded×};
    ghost use Rattle.board_history.specs.Past.{Past, past_code};

    ghost Value = { S × Past };

    ghost coded = { coded× S.code past_code };

    ghost use Rattle.board_dealing.specs.Kept.{IsKept};

    ghost view = { λ b. (b.standings, b.history) };

    ghost invariant = { λ b. S.sound b.standings × IsKept (S.planned b.standings) (S.known b.standings)
        b.history.count b.history.events b.agenda b.seen };
}

// The fault; the part is dropped.
fn dropped<T: Drop>(_part: T, fault: BoardFault) -> BoardFault
    ensures { result ≡ fault }
{
    fault
}

// The board with these parts, of which nothing has happened, after recorded answers.
fn opened<S: Standings>(
    alloc: Global,
    standings: S,
    parts: Parts,
    answers: Vec<Noted>,
) -> Result<Board<S>, BoardFault>
    requires sound { S.sound standings }
    requires kept { IsKept (S.planned standings) (S.known standings) parts.history.count parts.history.events
        parts.agenda 0 }
    requires nothing { parts.history.events ≡ [] }
    ensures planned { IfOk result (λ b. S.planned b.0 ≡ S.planned standings) }
    ensures count { IfOk result (λ b. b.1.count ≡ length (S.planned standings).tasks) }
    ensures reopened { IfOk result (λ b. IsReopened (S.planned standings) (map noted_of answers.items) b.1.events) }
    ensures fault { IfErr result (IsBoardFault (S.planned standings) (map noted_of answers.items)) }
{
    let mut standings = standings;
    let mut history = parts.history;
    let mut agenda = parts.agenda;
    let mut seen = 0;
    match reopen(
        alloc,
        &mut standings,
        &mut history,
        &mut agenda,
        &mut seen,
        answers,
    ) {
        Ok(()) => Ok(Board {
            standings,
            history,
            agenda,
            seen,
        }),
        Err(fault) => Err(dropped((standings, (history, agenda)), fault)),
    }
}

impl<S: Standings> Board<S> {
    /// The board of a plan. Without recorded answers nothing has happened; else the history is replayed from them, and
    /// then there was a crash. The needs are the pairs of a task and of one that it needs by what is known at the
    /// start; pairs of other numbers change nothing.
    ///
    /// Fails with `BadAnswer` where the answers do not follow: with how many of them do.
    pub fn open(
        alloc: Global,
        standings: S,
        needs: &[(usize, usize)],
        answers: Vec<Noted>,
    ) -> Result<Board<S>, BoardFault>
        requires sound { S.sound standings }
        requires seen { IsSeen (S.planned standings) at_opening (S.known standings) }
        requires needs { AreStartNeeds (S.planned standings) needs.now }
        ensures planned { IfOk result (λ b. S.planned b.0 ≡ S.planned standings) }
        ensures count { IfOk result (λ b. b.1.count ≡ length (S.planned standings).tasks) }
        ensures reopened { IfOk result (λ b. IsReopened (S.planned standings) (map noted_of answers.items) b.1.events) }
        ensures fault { IfErr result (IsBoardFault (S.planned standings) (map noted_of answers.items)) }
    {
        match first_parts(alloc, &standings, needs) {
            Ok(parts) => opened(alloc, standings, parts, answers),
            Err(_) => Err(dropped((standings, answers), BoardFault::OutOfMemory)),
        }
    }

    /// What has happened, oldest first. Each event came where it might.
    pub fn history(&self) -> &[Event]
        ensures events { map event_of result.now ≡ self.now.1.events }
        ensures legal { IsLegal (S.planned self.now.0) self.now.1.events }
    {
        self.history.events()
    }

    /// What has happened, oldest first; the rest of the board is dropped. Each event came where it might.
    pub fn into_history(self) -> Vec<Event>
        ensures events { map event_of result.items ≡ self.1.events }
        ensures legal { IsLegal (S.planned self.0) self.1.events }
    {
        let Board {
            standings,
            history,
            agenda,
            seen: _,
        } = self;
        letting_go(history.into_events(), (standings, agenda))
    }

    /// The open Begin of the task has this answer. It takes no memory.
    pub fn answer(&mut self, task: u32, answer: Answer)
        requires { MayEnd (S.planned self.old.0) (progress self.old.1.events) task answer }
        ensures { self.new ≡ (self.old.0, with_event self.old.1 (event.answer task answer)) }
    {
        take(
            &self.standings,
            &mut self.history,
            &mut self.agenda,
            task,
            answer,
        );
    }

    /// The job of the open Begin of the task is given back. It takes no memory.
    pub fn back(&mut self, task: u32)
        requires { IsBegun (progress self.old.1.events) task }
        ensures { self.new ≡ (self.old.0, with_event self.old.1 (event.back task)) }
    {
        give_back(&self.standings, &mut self.history, &self.agenda, task);
    }

    /// What a worker is to do, after the scopes that may be entered or left.
    pub fn next(&mut self, alloc: Global, worker: u32) -> Result<Next, OutOfMemory>
        ensures planned { S.planned self.new.0 ≡ S.planned self.old.0 }
        ensures legal { IsLegal (S.planned self.old.0) self.new.1.events }
        ensures next { IfOk result (λ n. IsNext (S.planned self.old.0) self.old.1.events worker n self.new.1.events) }
        ensures out { OnErr result (HasPassed (S.planned self.old.0) self.old.1.events self.new.1.events) }
    {
        if is_refused(&self.history) {
            return Ok(pause(&self.history));
        }
        deal(
            alloc,
            &mut self.standings,
            &mut self.history,
            &mut self.agenda,
            &mut self.seen,
            worker,
        )
    }

    /// How the deployment has ended. Nothing happens to the tasks.
    pub fn end(&mut self, alloc: Global) -> Result<Ending, OutOfMemory>
        requires { HasEnded (S.planned self.old.0) (progress self.old.1.events) }
        ensures planned { S.planned self.new.0 ≡ S.planned self.old.0 }
        ensures past { self.new.1 ≡ self.old.1 }
        ensures ending { IfOk result (IsTrueEnding S.tells (S.planned self.old.0) (progress self.old.1.events)) }
    {
        match refused_ending(alloc, &self.history)? {
            Some(ending) => Ok(ending),
            None => unrefused_ending(alloc, &mut self.standings, &self.history, &self.agenda),
        }
    }

    /// The id of what the task puts or deletes, as it is spelled; else `enter ` or `leave ` and the position of the
    /// scope.
    pub fn task_name(&self, alloc: Global, task: u32) -> Result<Text, OutOfMemory>
        requires { task < length (S.planned self.now.0).tasks }
        ensures { IfOk result (λ t. name_of S.titled (S.planned self.now.0) task ≡ Some t) }
    {
        task_name(alloc, &self.standings, task)
    }
}
