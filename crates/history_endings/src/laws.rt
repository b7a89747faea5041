// How histories end. A law has no body: its contract is the law.
ghost use Rattle.plan_cells.specs.Known.{Table};
ghost use Rattle.deploy_histories.specs.Planned.{Planned};
ghost use Rattle.deploy_histories.specs.Events.{Progress};
ghost use Rattle.deploy_histories.specs.Points.{IsTableOf};
ghost use Rattle.deploy_histories.specs.Legal.{HasEnded};
ghost use Rattle.deploy_histories.specs.Endings.{Ending, IsEnding};

/// Where a history has ended there is a true ending of it: every task is done; or an answer has refused; or a task that
/// needs nothing more has a value that is none or breaks its rule; or tasks that are not done need each other in a
/// circle.
pub fn ended_has_a_cause()
    ensures { (x : Planned) (p : Progress) (t : Table) → IsTableOf x p t → HasEnded x p
        → (e : Ending) × IsEnding x p e }
{}
