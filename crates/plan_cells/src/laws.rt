// What holds of the cells of a template. A law has no body: its contract is the law.
ghost use Rattle.std.specs.Prelude.{◌≡◌, Option, Some, None, List, true, false};
ghost use Rattle.template_parameters.specs.Json.{Json};
ghost use Rattle.deploy_cells.specs.Held.{HeldResource};
ghost use Rattle.reading.specs.World.{value_in};
ghost use Rattle.reading.specs.Knowledge.{told, value, Completes, Grows};
ghost use Rattle.template_parameters.specs.Mode.{Mode};
ghost use Rattle.deploy_cells.specs.Cells.{Cell, World, parent, admits};
ghost use Rattle.deploy_cells.specs.Guarded.{Reads, Meaning, IsWorld};
ghost use Rattle.deploy_cells.specs.Place.{Place};
ghost use Rattle.arm_eval.specs.Look.{Looking, Surroundings};
ghost use Rattle.template_parameters.specs.Tree.{TemplateTree};
ghost use Rattle.deploy_cells.specs.Followed.{followed};
ghost use Rattle.plan_cells.specs.Sites.{Site, reading_in, seen_at, surroundings};
ghost use Rattle.plan_cells.specs.Meaning.{Deployment, raw};
ghost use Rattle.plan_cells.specs.Children.{Has, AreApart, NamesDiffer, roots, children};
ghost use Rattle.plan_cells.specs.Desired.{Satisfies, HasParts, is_state};
ghost use Rattle.plan_cells.specs.Known.{Moment, Table, IsKnown, IsTable, IsTrueIn};
ghost use Rattle.plan_cells.specs.Start.{IsStart, IsSo, Point, Basis, at_point, IsTableAt, IsLater, IsOnTheWay};
ghost use Rattle.plan_cells.specs.Tasks.{Task, Work, work};
ghost use Rattle.plan_cells.specs.TaskOf.{AreTasks};
ghost use Rattle.plan_cells.specs.Needs.{needs};

/// What is known of a cell is so in each world in which what is known outright is so.
pub fn known_is_so()
    ensures { (m : Meaning) (n : Moment) (w : World) → IsWorld m w → IsTrueIn w n
        → (c : Cell) (o : Option Json) → IsKnown m n c o → w c ≡ o }
{}

/// There is at most one table of all that is known at a moment, and each world in which what is known outright is so
/// has what is in it.
pub fn one_table()
    ensures alone { (m : Meaning) (n : Moment) (q r : Table) → IsTable m n q → IsTable m n r → (c : Cell) → q c ≡ r c }
    ensures worlds { (m : Meaning) (n : Moment) (q : Table) → IsTable m n q → (w : World) → IsWorld m w → IsTrueIn w n
        → Completes q w }
{}

/// What is told of a reading by the table of a moment is so in each of these worlds.
pub fn told_is_so<A>()
    ensures { (m : Meaning) (n : Moment) (q : Table) → IsTable m n q → (w : World) → IsWorld m w → IsTrueIn w n
        → (r : Reads A) → IsSo w r (told q r) }
{}

/// A world is a desired state of a template exactly where it is one part by part.
pub fn parts_of_desired_states()
    ensures forth { (d : Deployment) (held : List HeldResource) (w : World) → Satisfies d held w → HasParts d held w }
    ensures back { (d : Deployment) (held : List HeldResource) (w : World) → HasParts d held w → Satisfies d held w }
{}

/// The cells of the root, and those that the value of a cell opens: each has that cell as its parent and is there by
/// the value. Each is listed once, where the names of one sort differ in each template. A cell that is not listed
/// where its parent admits it is not declared by the template.
pub fn cells_that_are_opened()
    ensures roots { (d : Deployment) (c : Cell) → Has c (roots d) → (parent c ≡ None) × (is_state c ≡ false) }
    ensures children { (d : Deployment) (c : Cell) (v : Json) (e : Cell) → Has e (children d c v)
        → (parent e ≡ Some c) × ((admits e (Some v) ≡ true) × (is_state e ≡ false)) }
    ensures once { (d : Deployment) → NamesDiffer d.template
        → AreApart (roots d) × ((c : Cell) (v : Json) → AreApart (children d c v)) }
    ensures all_roots { (d : Deployment) (c : Cell) → parent c ≡ None → is_state c ≡ false → (Has c (roots d) → ⊥)
        → raw d c ≡ None }
    ensures all_children { (d : Deployment) (c : Cell) (v : Json) (e : Cell) → parent e ≡ Some c
        → admits e (Some v) ≡ true → (Has e (children d c v) → ⊥) → raw d e ≡ None }
{}

/// What reads at a site reads through one reading for each cell that the evaluator looks at.
pub fn sites_by_one_reading<A>()
    ensures { (t : TemplateTree) (place : Place) (e : Site) (f : Surroundings → Looking A)
        → reading_in t e f place ≡ followed (seen_at t place e) (f (surroundings e place)) }
{}

/// What is known at a point of a deployment stays known at each later point.
pub fn points_go_on()
    ensures { (d : Deployment) (c : Basis) (p q : Point) → IsLater p q → (s t : Table) → IsTableAt d c p s
        → IsTableAt d c q t → Grows s t }
{}

/// What is known outright at a point is so in each desired state that has the states which were stored by then.
pub fn points_are_so()
    ensures { (d : Deployment) (c : Basis) (p : Point) (w : World) → Satisfies d c.held w → IsOnTheWay d c p w
        → IsTrueIn w (at_point c p) }
{}

/// In each desired state of a template the tasks are the entry and the leave of each scope and the put of each
/// included resource. The deletes come after them.
pub fn tasks_one_by_one()
    ensures { (d : Deployment) (held : List HeldResource) (w : World) → Satisfies d held w
        → (ts : List Task) × AreTasks d w ts }
{}

/// Each desired state of a template has the tasks that are known at the start, with their keys, and the needs among
/// them that are known at the start.
pub fn one_plan()
    ensures work { (d : Deployment) (mode : Mode) (held : List HeldResource) (q : Table) (x : Work) → IsStart d q
        → told q (work d mode held) ≡ value x
        → (w : World) → Satisfies d held w → value_in w (work d mode held) ≡ Some x }
    ensures needs { (d : Deployment) (held : List HeldResource) (q : Table) (u v : Task) → IsStart d q
        → (w : World) → Satisfies d held w → IsSo w (needs d u v) (told q (needs d u v)) }
{}
