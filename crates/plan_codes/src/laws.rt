// What holds of tags as lists of numbers. A law has no body: its contract is the law.
ghost use Rattle.std.specs.Prelude.{◌≡◌, ◌&&◌, ℕ, Bool, true, List, bytes_eq, nat_eq};
ghost use Rattle.arm_value.specs.Json.{Json, text};
ghost use Rattle.arm_ids.specs.declared.id.Place.{Place};
ghost use Rattle.reading.specs.Knowledge.{told, value};
ghost use Rattle.template_parts.specs.declared.mode.Form.{Form};
ghost use Rattle.template_tree.specs.Tree.{TemplateTree};
ghost use Rattle.std.specs.Prelude.{Option};
ghost use Rattle.deploy_cells.specs.Cells.{Position};
ghost use Rattle.plan_tags.specs.Known.{Table};
ghost use Rattle.plan_tags.specs.Resources.{Listed};
ghost use Rattle.plan_tags.specs.Meaning.{Deployment};
ghost use Rattle.plan_tags.specs.Tasks.{Task};
ghost use Rattle.plan_tags.specs.Needs.{value_names, started, ended, needs};
ghost use Rattle.plan_tags.specs.Tags.{Tag, same_tag};
ghost use Rattle.tag_needs.specs.Tags.{shares};
ghost use Rattle.plan_codes.specs.Codes.{code, IsNumbering, IsTagOf};
ghost use Rattle.plan_codes.specs.NameCodes.{names_of, value_asks};
ghost use Rattle.plan_codes.specs.TaskCodes.{AreDepending, MayBeNamed, IsTaskIn, task_tags, task_asks};

/// Where scopes have numbers of their own, one tag is another exactly where their numbers are the same.
pub fn tags_are_told_apart()
    ensures { (number : Position → ℕ) (here : Position → Bool) → IsNumbering number (λ p. here p ≡ true)
        → (a t : Tag) → IsTagOf (λ p. here p ≡ true) a → IsTagOf (λ p. here p ≡ true) t
        → bytes_eq (code number a) (code number t) ≡ same_tag a t }
{}

/// A value of an element of `dependsOn` names an instance exactly where it asks for one of its names, in one scope.
pub fn names_by_numbers()
    ensures { (f g : ℕ) (form : Form) (place : Place) (t : Option TemplateTree) (v : Json) (r : Listed) (i : ℕ)
        (n : List ℕ) → shares (value_asks f form t v) (names_of g form place r i n)
        ≡ (nat_eq f g && value_names form place t v r i (text n)) }
{}

/// Where names and the elements of `dependsOn` are known, one task needs another exactly where the other has a tag for
/// which the one asks.
pub fn needs_by_numbers()
    ensures { (d : Deployment) (number : Position → ℕ) (here : Position → Bool) (q : Table)
        → IsNumbering number (λ p. here p ≡ true) → (u v : Task) (vs : List Json)
        → IsTaskIn (λ p. here p ≡ true) u → IsTaskIn (λ p. here p ≡ true) v → AreDepending d q (started u) vs
        → MayBeNamed d q (ended v)
        → told q (needs d u v) ≡ value (shares (task_asks d number u vs) (task_tags d number q v)) }
{}
