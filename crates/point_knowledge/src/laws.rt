// What holds of the rows of a point. A law has no body: its contract is the law.
ghost use Rattle.std.specs.Prelude.{◌≡◌, ◌<◌, ℕ, length, Some};
ghost use Rattle.arm_value.specs.View.{json};
ghost use Rattle.arm_value.specs.declared.value.Value.{Value};
ghost use Rattle.reading.specs.Knowledge.{value, absent};
ghost use Rattle.plan_cells.specs.Known.{entry_told};
ghost use Rattle.plan_cells.specs.Meaning.{meaning};
ghost use Rattle.plan_table.specs.declared.table.Table.{Table};
ghost use Rattle.plan_table.specs.Lines.{cell_of, line_at};
ghost use Rattle.plan_table.specs.Whole.{whole_of, scopes_of};
ghost use Rattle.plan_sight.specs.Ready.{IsReady};
ghost use Rattle.deploy_histories.specs.Planned.{Planned, IsPlanned};
ghost use Rattle.deploy_histories.specs.Events.{Progress};
ghost use Rattle.point_values.specs.Seen.{IsSeen};
ghost use Rattle.point_rows.specs.declared.later.Entry.TheVariants.{Away};
ghost use Rattle.point_rows.specs.declared.later.Later.{Later};
ghost use Rattle.point_rows.specs.declared.later.StateAt.{StateAt};
ghost use Rattle.point_rows.specs.Rows.{known_now, told_now, HasState, IsEntrySpot};
ghost use Rattle.point_knowledge.specs.Steps.{IsBlank, AddsEntry, AddsValue, IsStateThen};

/// Before anything became known after the start, what the rows have is seen at each point.
pub fn opening_is_seen()
    ensures { (x : Planned) (p : Progress) (t : Table) (l : Later) → IsPlanned x → x.deployment ≡ whole_of t
        → IsReady t → IsBlank l → IsSeen x p (known_now t l) }
{}

/// A state that is known at a point may be added.
pub fn states_are_seen()
    ensures { (x : Planned) (p : Progress) (t : Table) (l m : Later) (s : StateAt) → IsSeen x p (known_now t l)
        → IsStateThen x p s → HasState l s m → IsSeen x p (known_now t m) }
{}

/// The value that is told of a parameter or a variable may be added.
pub fn entries_are_seen()
    ensures { (x : Planned) (p : Progress) (t : Table) (l m : Later) (j : ℕ) (v : Value)
        → x.deployment ≡ whole_of t → IsSeen x p (known_now t l) → j < length t.lines.items
        → IsEntrySpot (line_at t.lines.items j).spot
        → told_now t l (meaning (whole_of t) (cell_of (scopes_of t) (line_at t.lines.items j).spot))
        ≡ value (Some (json v))
        → AddsValue j v l m → IsSeen x p (known_now t m) }
{}

/// That a parameter or a variable is told to have no value may be added.
pub fn absences_are_seen()
    ensures { (x : Planned) (p : Progress) (t : Table) (l m : Later) (j : ℕ)
        → x.deployment ≡ whole_of t → IsSeen x p (known_now t l) → j < length t.lines.items
        → IsEntrySpot (line_at t.lines.items j).spot
        → entry_told (told_now t l (meaning (whole_of t) (cell_of (scopes_of t) (line_at t.lines.items j).spot)))
        ≡ absent
        → AddsEntry j Away l m → IsSeen x p (known_now t m) }
{}
