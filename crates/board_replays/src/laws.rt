// What holds of replays. A law has no body: its contract is the law.
ghost use Rattle.std.specs.Prelude.{◌≡◌, ◌++◌, ℕ, List};
ghost use Rattle.deploy_histories.specs.Planned.{Planned};
ghost use Rattle.deploy_histories.specs.Answers.{Noted, IsReplay, Follow, StopsFollowing};
ghost use Rattle.deploy_histories.specs.Events.{Event, Progress};

/// A history that is replayed from answers is the only one.
pub fn replays_are_one()
    ensures { (x : Planned) (ns : List Noted) (p : Progress) (g h : List Event) → IsReplay x p ns g
        → IsReplay x p ns h → g ≡ h }
{}

/// Where answers follow, the first of them do, however many. So there is one number of answers that follow where not
/// all do, and none where all do.
pub fn answers_stop_once()
    ensures first { (x : Planned) (ns ms : List Noted) → Follow x (ns ++ ms) → Follow x ns }
    ensures once { (x : Planned) (ns : List Noted) (i j : ℕ) → StopsFollowing x ns i → StopsFollowing x ns j → i ≡ j }
    ensures never { (x : Planned) (ns : List Noted) (i : ℕ) → Follow x ns → StopsFollowing x ns i → ⊥ }
{}
