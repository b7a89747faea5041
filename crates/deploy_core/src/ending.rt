// How a deployment has ended.

ghost use Rattle.std.specs.Prelude.{◌≡◌, ◌<◌, ℕ, IfOk, None, false, length};
ghost use Rattle.depend_graph.specs.Orders.{IsSorted};
ghost use Rattle.depend_graph.specs.Shape.{undone_needs};
ghost use Rattle.deploy_histories.specs.Events.{Progress, progress, done_status, is_waiting};
ghost use Rattle.deploy_histories.specs.Legal.{HasEnded};
ghost use Rattle.task_agenda.specs.Agendas.{count};
ghost use Rattle.task_standings.specs.Seen.{IsSeen};
ghost use Rattle.task_standings.specs.Failures.{IsFailing};
ghost use Rattle.task_standings.specs.Outputs.{IsAllSeen};
ghost use Rattle.task_standings.specs.Standings.{AreScopesSeen};
ghost use Rattle.deploy_core.specs.Endings.{IsTrueEnding, IsRefusedEnding, IsUndoneNeed, HasTurns, IsTurn, AreTurns};
ghost use Rattle.deploy_core.specs.declared.ending.Ending.TheVariants.{Faulty};
ghost use Rattle.deploy_core.specs.Endings.{HasOutputs};
ghost use Rattle.board_dealing.specs.Kept.{IsKept};
ghost use Rattle.board_dealing.specs.Looks.{StaysKept};

use arm_value::{OutOfMemory, Text};
use board_history::History;
use depend_graph::{Graph, Sorted};
use std::alloc::Global;
use task_agenda::Agenda;
use task_standings::laws::{needed_by_all, outputs_by_all};
use task_standings::{Failing, RootOutput, Standings, TaskFault};

/// How a deployment has ended.
#[derive(Drop)]
pub enum Ending {
    /// Every task is done, and these are the outputs of the root that have a value, in the order of the template.
    Succeeded(Vec<RootOutput>),
    /// This task was the first that was refused, with this code.
    Refused(u32, Text),
    /// This task needs nothing more, and has this fault.
    Faulty(u32, TaskFault),
    /// Each of these tasks needs the next, and the last the first, which is the least. None of them is done.
    Circular(Vec<u32>),
}

/// The refusal that has ended the deployment, where one has.
pub(crate) fn refused_ending(
    alloc: Global,
    history: &History,
) -> Result<Option<Ending>, OutOfMemory>
    ensures { IfOk result (IsRefusedEnding (progress history.now.events)) }
{
    match history.refusal() {
        Some((task, code)) => Ok(Some(Ending::Refused(task, code.copy(alloc)?))),
        None => Ok(None),
    }
}

// The first need of the task that is not done.
fn undone_need(alloc: Global, agenda: &Agenda, task: u32) -> Result<Failing, OutOfMemory>
    requires { 0 < length (undone_needs agenda.now.graph task) }
    ensures { IfOk result (IsUndoneNeed agenda.now task) }
{
    let needs = agenda.blockers(alloc, task)?;
    Ok(Failing::Needs(needs[0]))
}

// Why the task cannot begin.
fn reason<S: Standings>(
    alloc: Global,
    standings: &mut S,
    history: &History,
    agenda: &Agenda,
    task: u32,
) -> Result<Failing, OutOfMemory>
    requires sound { S.sound standings.old }
    requires within { task < length (S.planned standings.old).tasks }
    requires undone { done_status ((progress history.now.events).status task) ≡ false }
    requires unrefused { (progress history.now.events).refusal ≡ None }
    requires ended { HasEnded (S.planned standings.old) (progress history.now.events) }
    requires kept { (seen : ℕ) × IsKept (S.planned standings.old) (S.known standings.old) history.now.count
        history.now.events agenda.now seen }
    ensures sound { S.sound standings.new }
    ensures planned { S.planned standings.new ≡ S.planned standings.old }
    ensures kept { StaysKept (S.planned standings.old) (S.known standings.old) (S.known standings.new)
        history.now.count history.now.events agenda.now agenda.now }
    ensures reason { IfOk result (IsFailing S.tells (S.planned standings.old) (progress history.now.events) task) }
{
    needed_by_all();
    if agenda.is_ready(task) {
        standings.failing(alloc, history, task)
    } else {
        undone_need(alloc, agenda, task)
    }
}

// Adds a need of the task, where it is not done, or returns its fault.
fn turn<S: Standings>(
    alloc: Global,
    standings: &mut S,
    history: &History,
    agenda: &Agenda,
    turns: &mut Graph,
    task: u32,
) -> Result<Option<TaskFault>, OutOfMemory>
    requires sound { S.sound standings.old }
    requires within { task < length (S.planned standings.old).tasks }
    requires unrefused { (progress history.now.events).refusal ≡ None }
    requires ended { HasEnded (S.planned standings.old) (progress history.now.events) }
    requires kept { (seen : ℕ) × IsKept (S.planned standings.old) (S.known standings.old) history.now.count
        history.now.events agenda.now seen }
    requires turns { HasTurns (S.planned standings.old) (progress history.now.events) task turns.old }
    ensures sound { S.sound standings.new }
    ensures planned { S.planned standings.new ≡ S.planned standings.old }
    ensures kept { StaysKept (S.planned standings.old) (S.known standings.old) (S.known standings.new)
        history.now.count history.now.events agenda.now agenda.now }
    ensures turn { IfOk result
        (IsTurn S.tells (S.planned standings.old) (progress history.now.events) task turns.new) }
{
    if history.is_done(task) {
        return Ok(None);
    }
    match reason(alloc, standings, history, agenda, task)? {
        Failing::Faulty(fault) => Ok(Some(fault)),
        Failing::Needs(other) => {
            turns.add_edge(alloc, task, other)?;
            Ok(None)
        }
    }
}

// The first task that has a fault; or, of each task that is not done, one that it needs.
fn first_fault<S: Standings>(
    alloc: Global,
    standings: &mut S,
    history: &History,
    agenda: &Agenda,
    turns: &mut Graph,
) -> Result<Option<(u32, TaskFault)>, OutOfMemory>
    requires sound { S.sound standings.old }
    requires unrefused { (progress history.now.events).refusal ≡ None }
    requires ended { HasEnded (S.planned standings.old) (progress history.now.events) }
    requires kept { (seen : ℕ) × IsKept (S.planned standings.old) (S.known standings.old) history.now.count
        history.now.events agenda.now seen }
    requires turns { HasTurns (S.planned standings.old) (progress history.now.events) 0 turns.old }
    ensures sound { S.sound standings.new }
    ensures planned { S.planned standings.new ≡ S.planned standings.old }
    ensures kept { StaysKept (S.planned standings.old) (S.known standings.old) (S.known standings.new)
        history.now.count history.now.events agenda.now agenda.now }
    ensures turns { IfOk result (AreTurns S.tells (S.planned standings.old) (progress history.now.events) turns.new) }
{
    for task in 0..standings.count() {
        if let Some(fault) = turn(alloc, standings, history, agenda, turns, task)? {
            return Ok(Some((task, fault)));
        }
    }
    Ok(None)
}

// An order of the nodes, or a circle of them. The graph is dropped.
fn order_of(alloc: Global, turns: Graph) -> Result<Sorted, OutOfMemory>
    ensures { IfOk result (IsSorted turns) }
{
    turns.order(alloc)
}

// Each task is done, and these are the outputs of the root.
fn succeeded<S: Standings>(alloc: Global, standings: &S) -> Result<Ending, OutOfMemory>
    requires sound { S.sound standings.now }
    requires over { (p : Progress) × IsAllSeen (S.planned standings.now) p (S.known standings.now) }
    ensures { IfOk result (HasOutputs (S.planned standings.now) (S.known standings.now)) }
{
    Ok(Ending::Succeeded(standings.outputs(alloc)?))
}

// How the deployment has ended, by a graph that has a need of each task that is not done.
fn ending_in_turn<S: Standings>(
    alloc: Global,
    standings: &S,
    _history: &History,
    turns: Graph,
) -> Result<Ending, OutOfMemory>
    requires sound { S.sound standings.now }
    requires seen { IsSeen (S.planned standings.now) (progress _history.now.events) (S.known standings.now) }
    requires scopes { AreScopesSeen (S.planned standings.now) (progress _history.now.events) (S.known standings.now) }
    requires turns { HasTurns (S.planned standings.now) (progress _history.now.events)
        (length (S.planned standings.now).tasks) turns }
    ensures { IfOk result (IsTrueEnding S.tells (S.planned standings.now) (progress _history.now.events)) }
{
    outputs_by_all();
    match order_of(alloc, turns)? {
        Sorted::Order(_order) => succeeded(alloc, standings),
        Sorted::Circle(tasks) => Ok(Ending::Circular(tasks)),
    }
}

// A task with this fault ends the deployment. The graph is dropped.
fn faulty(_turns: Graph, task: u32, fault: TaskFault) -> Ending
    ensures { result ≡ Faulty task fault }
{
    Ending::Faulty(task, fault)
}

// How the deployment has ended, by a graph that has nothing yet.
fn ending_by<S: Standings>(
    alloc: Global,
    standings: &mut S,
    history: &History,
    agenda: &Agenda,
    turns: Graph,
) -> Result<Ending, OutOfMemory>
    requires sound { S.sound standings.old }
    requires unrefused { (progress history.now.events).refusal ≡ None }
    requires ended { HasEnded (S.planned standings.old) (progress history.now.events) }
    requires kept { (seen : ℕ) × IsKept (S.planned standings.old) (S.known standings.old) history.now.count
        history.now.events agenda.now seen }
    requires turns { HasTurns (S.planned standings.old) (progress history.now.events) 0 turns }
    ensures sound { S.sound standings.new }
    ensures planned { S.planned standings.new ≡ S.planned standings.old }
    ensures kept { StaysKept (S.planned standings.old) (S.known standings.old) (S.known standings.new)
        history.now.count history.now.events agenda.now agenda.now }
    ensures ending { IfOk result (IsTrueEnding S.tells (S.planned standings.old) (progress history.now.events)) }
{
    let mut turns = turns;
    match first_fault(alloc, standings, history, agenda, &mut turns)? {
        Some((task, fault)) => Ok(faulty(turns, task, fault)),
        None => ending_in_turn(alloc, standings, history, turns),
    }
}

/// How the deployment has ended in which no answer has refused.
pub(crate) fn unrefused_ending<S: Standings>(
    alloc: Global,
    standings: &mut S,
    history: &History,
    agenda: &Agenda,
) -> Result<Ending, OutOfMemory>
    requires sound { S.sound standings.old }
    requires unrefused { (progress history.now.events).refusal ≡ None }
    requires ended { HasEnded (S.planned standings.old) (progress history.now.events) }
    requires kept { (seen : ℕ) × IsKept (S.planned standings.old) (S.known standings.old) history.now.count
        history.now.events agenda.now seen }
    ensures sound { S.sound standings.new }
    ensures planned { S.planned standings.new ≡ S.planned standings.old }
    ensures kept { StaysKept (S.planned standings.old) (S.known standings.old) (S.known standings.new)
        history.now.count history.now.events agenda.now agenda.now }
    ensures ending { IfOk result (IsTrueEnding S.tells (S.planned standings.old) (progress history.now.events)) }
{
    let turns = Graph::new(alloc, standings.count())?;
    ending_by(alloc, standings, history, agenda, turns)
}
