// What holds of all histories. A law has no body: its contract is the law.
ghost use Rattle.std.specs.Prelude.{◌≡◌, List};
ghost use Rattle.reading.specs.Knowledge.{Grows, Completes};
ghost use Rattle.deploy_cells.specs.Cells.{Cell, World};
ghost use Rattle.deploy_cells.specs.Puts.{AreAllowed};
ghost use Rattle.deploy_histories.specs.Known.{Table};
ghost use Rattle.deploy_histories.specs.Meaning.{bodies};
ghost use Rattle.deploy_histories.specs.Desired.{kinds, Satisfies};
ghost use Rattle.deploy_histories.specs.Planned.{Planned, IsPlanned};
ghost use Rattle.deploy_histories.specs.Events.{Event, Progress, after_all, at_opening, progress};
ghost use Rattle.deploy_histories.specs.Points.{IsKnownThen, IsTableOf};
ghost use Rattle.deploy_histories.specs.Legal.{IsLegalFrom, IsLegal, HasSucceeded};
ghost use Rattle.deploy_histories.specs.Answers.{answers_of};
ghost use Rattle.deploy_histories.specs.Outcome.{stores_by, AreGiven, BelongsTo};
ghost use Rattle.history_laws.specs.Past.{StaysDone, OneAnswer, IsKept};

use provider_trait::Provider;

/// What is done stays done, with its state, and what is known stays known.
pub fn all_stays()
    ensures done { (x : Planned) (p : Progress) (es : List Event) → IsLegalFrom x p es
        → StaysDone p.status (after_all es p).status }
    ensures known { (x : Planned) (p : Progress) (es : List Event) → IsLegalFrom x p es → (s t : Table)
        → IsTableOf x p s → IsTableOf x (after_all es p) t → Grows s t }
{}

/// Each task that is begun or done was ready with its body, and each state that is stored is one that a provider may
/// have answered.
pub fn tasks_were_ready<P: Provider>()
    ensures { (x : Planned) (h : List Event) → IsLegal x h → AreGiven P.may x at_opening h
        → IsKept P.may x (progress h).status }
{}

/// Over a provider that may give one answer only to each act, what is known on the way is so in each desired state.
pub fn known_on_the_way<P: Provider>()
    ensures { (x : Planned) (h : List Event) → OneAnswer P.may → IsPlanned x → IsLegal x h
        → AreGiven P.may x at_opening h → (w : World) → Satisfies x.deployment x.held w
        → AreAllowed (stores_by P.may) x.deployment.place (kinds x.deployment) (bodies x.deployment) w
        → (t : Table) → IsKnownThen x (progress h) t → Completes t w }
{}

/// At most one desired state belongs to the answers of a history that has succeeded.
pub fn one_desired_state()
    ensures { (x : Planned) (h : List Event) → IsPlanned x → IsLegal x h → HasSucceeded x (progress h)
        → (w v : World) → Satisfies x.deployment x.held w → BelongsTo x w (answers_of h)
        → Satisfies x.deployment x.held v → BelongsTo x v (answers_of h) → (c : Cell) → w c ≡ v c }
{}

/// Over a provider that may give one answer only to each act there is at most one desired state, once a history has
/// succeeded. So any two such histories of one plan over one opening have the same.
pub fn order_does_not_matter<P: Provider>()
    ensures { (x : Planned) (h : List Event) → OneAnswer P.may → IsPlanned x → IsLegal x h
        → AreGiven P.may x at_opening h → HasSucceeded x (progress h)
        → (w v : World) → Satisfies x.deployment x.held w
        → AreAllowed (stores_by P.may) x.deployment.place (kinds x.deployment) (bodies x.deployment) w
        → Satisfies x.deployment x.held v
        → AreAllowed (stores_by P.may) x.deployment.place (kinds x.deployment) (bodies x.deployment) v
        → (c : Cell) → w c ≡ v c }
{}
