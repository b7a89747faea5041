// What holds of boards. A law has no body: its contract is the law.
ghost use Rattle.std.specs.Prelude.{◌≡◌, ◌<◌, ◌++◌, ◌∷◌, [], ℕ, List, false, length};
ghost use Rattle.depend_graph.specs.Shape.{with_done};
ghost use Rattle.plan_cells.specs.Known.{Table};
ghost use Rattle.deploy_histories.specs.Planned.{Planned};
ghost use Rattle.deploy_histories.specs.Events.{Event, progress, done_status, NoneBegun};
ghost use Rattle.deploy_histories.specs.Legal.{May, HasEnded};
ghost use Rattle.task_standings.specs.Seen.{IsSeen};
ghost use Rattle.task_agenda.specs.declared.agenda.Agenda.{Agenda};
ghost use Rattle.task_standings.specs.Standings.{AreScopesSeen};
ghost use Rattle.task_agenda.specs.Agendas.{is_listed, HasGraph};
ghost use Rattle.board_dealing.specs.Boards.{NoneMayBegin};
ghost use Rattle.board_dealing.specs.Kept.{IsKept, Concerns, Does};

/// Where all events were looked at and no task is listed, no task may begin; and where no Begin is open besides, the
/// deployment has ended.
pub fn pauses_are_ends()
    ensures waits { (x : Planned) (t : Table) (tasks : ℕ) (h : List Event) (a : Agenda) (seen : ℕ)
        → IsKept x t tasks h a seen → seen ≡ length h → ((u : ℕ) → is_listed a u ≡ false)
        → NoneMayBegin x (progress h) }
    ensures ends { (x : Planned) (t : Table) (tasks : ℕ) (h : List Event) (a : Agenda) (seen : ℕ)
        → IsKept x t tasks h a seen → seen ≡ length h → ((u : ℕ) → is_listed a u ≡ false)
        → NoneBegun (progress h) → HasEnded x (progress h) }
{}

/// After an event that concerns one task, and by which no task is done, a board keeps what it kept.
pub fn events_are_kept()
    ensures { (x : Planned) (t : Table) (tasks : ℕ) (h : List Event) (a : Agenda) (seen : ℕ)
        → IsKept x t tasks h a seen → (e : Event) → May x (progress h) e → IsSeen x (progress (h ++ e ∷ [])) t
        → (u : ℕ) → Concerns h e u
        → ((v : ℕ) → done_status ((progress (h ++ e ∷ [])).status v) ≡ done_status ((progress h).status v))
        → IsKept x t tasks (h ++ e ∷ []) a seen }
{}

/// After an event by which one task is done, a board keeps what it kept, once the agenda has this task as done. What
/// the board knows may be more.
pub fn done_tasks_are_kept()
    ensures { (x : Planned) (s t : Table) (tasks : ℕ) (h : List Event) (a b : Agenda) (seen : ℕ)
        → IsKept x s tasks h a seen → (e : Event) → May x (progress h) e → IsSeen x (progress (h ++ e ∷ [])) t
        → AreScopesSeen x (progress (h ++ e ∷ [])) t → (u : ℕ) → u < length x.tasks → Does h e u
        → HasGraph a b (with_done a.graph u) → IsKept x t tasks (h ++ e ∷ []) b seen }
{}
