// What holds of replays and records of histories. A law has no body: its contract is the law.
ghost use Rattle.std.specs.Prelude.{◌++◌, List};
ghost use Rattle.history_laws.specs.Planned.{Planned};
ghost use Rattle.history_laws.specs.Events.{Event, at_opening};
ghost use Rattle.history_laws.specs.Legal.{IsLegal};
ghost use Rattle.history_laws.specs.Answers.{answers_of, IsReplay};
ghost use Rattle.history_replays.specs.Recorded.{IsRecord};

/// The answers of a legal history follow: a history that is replayed from them is legal.
pub fn answers_follow()
    ensures { (x : Planned) (h r : List Event) → IsLegal x h → IsReplay x at_opening (answers_of h) r → IsLegal x r }
{}

/// Where nothing is begun any more, a legal history stays legal with an answer in the place of a Back and without the
/// entries and leaves of scopes.
pub fn a_back_was_an_answer()
    ensures { (x : Planned) (front more events : List Event) → IsLegal x (front ++ more) → IsRecord x more events
        → IsLegal x (front ++ events) }
{}
