// What holds of tables by which nothing refuses a plan. A law has no body: its contract is the law.
ghost use Rattle.std.specs.Prelude.{◌⊎◌, List, ℕ};
ghost use Rattle.arm_ids.specs.Held.{HeldResource};
ghost use Rattle.template_parts.specs.declared.fault.BindFault.{BindFault};
ghost use Rattle.template_parts.specs.declared.limit.Which.{Which};
ghost use Rattle.template_parts.specs.declared.mode.Mode.{Mode};
ghost use Rattle.plan_filling.specs.Limits.{IsOverrun};
ghost use Rattle.plan_table.specs.Counted.{IsCounted};
ghost use Rattle.plan_table.specs.declared.table.Table.{Table};
ghost use Rattle.plan_table.specs.Whole.{whole_of, rows_in};
ghost use Rattle.plan_tasks.specs.Start.{start_of, IsStartTable};
ghost use Rattle.plan_settling.specs.Refused.{AreSettled};
ghost use Rattle.plan_faults.specs.declared.fault.PlanFault.TheVariants as fault;
ghost use Rattle.plan_faults.specs.Faults.{IsFault, IsCountAbove, BySome};
ghost use Rattle.fault_exactness.specs.Exact.{HaveOwnKeys, NoneExtra, NameOneKey};

/// Where keys differ by the table of a start, no two instances of the deployment have one key by any such table.
pub fn same_keys_are_false()
    ensures { (t : Table) (mode : Mode) (held : List HeldResource) (first second : List ℕ) → IsStartTable t
        → HaveOwnKeys (whole_of t) (start_of t) → IsFault (whole_of t) mode held (fault.SameKey first second) → ⊥ }
{}

/// Where the rows of a start are settled, and no nested deployment gives what its template has no parameter for, no
/// value breaks its rule by whatever is known at the start, and names of parameters match.
pub fn bind_faults_are_false()
    ensures { (t : Table) (mode : Mode) (held : List HeldResource) (path : List ℕ) (f : BindFault) → IsStartTable t
        → AreSettled (rows_in t) → NoneExtra (whole_of t) (start_of t)
        → IsFault (whole_of t) mode held (fault.Bind path f) → ⊥ }
{}

/// Where each element of `dependsOn` names something of one key by the table of a start, none is unknown or ambiguous
/// by any such table.
pub fn dependency_faults_are_false()
    ensures unknown { (t : Table) (mode : Mode) (held : List HeldResource) (path : List ℕ) → IsStartTable t
        → NameOneKey (whole_of t) (start_of t)
        → IsFault (whole_of t) mode held (fault.UnknownDependency path) → ⊥ }
    ensures ambiguous { (t : Table) (mode : Mode) (held : List HeldResource) (path : List ℕ) → IsStartTable t
        → NameOneKey (whole_of t) (start_of t)
        → IsFault (whole_of t) mode held (fault.AmbiguousDependency path) → ⊥ }
{}

/// Where the table of a start counts its instances within their limits, and its rows are settled, no count is above 800
/// and no scope, nor all together, have too many instances, by whatever is known at the start.
pub fn limits_are_kept()
    ensures { (t : Table) (w : Which) (n : ℕ) → IsStartTable t → AreSettled (rows_in t) → IsCounted t
        → IsOverrun (whole_of t) w n ⊎ BySome (whole_of t) (λ q. IsCountAbove (whole_of t) q w n) → ⊥ }
{}
