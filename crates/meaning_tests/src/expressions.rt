// Names, loops, and fields of resources and modules.
ghost use Rattle.std.specs.Prelude.{◌≡◌, [], ◌∷◌, ◌++◌, pos, codes, true, Some, None};
ghost use Rattle.arm_value.specs.Json.{null, bool, int, text, array, row};
ghost use Rattle.reading.specs.World.{value_in, reads_in};
ghost use Rattle.deploy_cells.specs.Cells as cell;
ghost use Rattle.deploy_cells.specs.Cells.{step};
ghost use Rattle.bicep_resolved.specs.declared.leaf.Field.TheVariants as f;
ghost use Rattle.bicep_resolved.specs.declared.leaf.Target.TheVariants as t;
ghost use Rattle.bicep_resolved.specs.Source.{each, loop, instance, symbol, output, element};
ghost use Rattle.bicep_meaning.specs.Meaning.{value_of};
ghost use Rattle.bicep_meaning.specs.Declared.{whole};
ghost use Rattle.meaning_tests.specs.Words as w;
ghost use Rattle.meaning_tests.specs.Sample.{shown, looks, here, world, key_of_r};

/// A parameter and a variable with an entry are their entries; a variable without one is its expression.
pub fn names()
    ensures parameter { looks (w.parameter 1) ≡ cell.parameter [] (codes "list") ∷ [] }
    ensures variable { looks (w.variable 2) ≡ cell.variable [] (codes "v") ∷ [] }
    ensures inlined { shown (w.variable 3) ≡ Some (int (pos 7)) }
    ensures state { looks (w.variable 3) ≡ key_of_r ∷ [] }
{}

/// A loop runs over the items of an array or the characters of a text. An index does not look at an item.
pub fn loops()
    ensures items { value_in world (value_of here (whole here) (each (loop 0 (w.parameter 1)) w.item) [])
        ≡ Some (array (row (text (codes "x") ∷ text (codes "y") ∷ []))) }
    ensures indices { value_in world (value_of here (whole here) (each (loop 0 (w.said (codes "ab"))) w.index) [])
        ≡ Some (array (row (int (pos 0) ∷ int (pos 1) ∷ []))) }
    ensures characters { value_in world (value_of here (whole here) (each (loop 0 (w.said (codes "ab"))) w.item) [])
        ≡ None }
    ensures nothing { value_in world (value_of here (whole here) (each (loop 0 w.yes) w.index) []) ≡ None }
{}

/// The fields of a resource. `.id`, `.name`, `.type` and `.apiVersion` of one read no state.
pub fn fields()
    ensures id { shown (w.field (t.Resource 4) f.Id)
        ≡ Some (text (codes "/subscriptions/s/resourceGroups/g/providers/T.N/a/r")) }
    ensures reads_nothing { looks (w.field (t.Resource 4) f.Id) ≡ [] }
    ensures kind { shown (w.field (t.Resource 4) f.Type) ≡ Some (text (codes "T.N/a")) }
    ensures version { shown (w.field (t.Resource 4) f.ApiVersion) ≡ Some (text (codes "1")) }
    ensures other { shown (w.field (t.Resource 4) (f.Other (codes "location"))) ≡ Some (text (codes "w")) }
    ensures alone { shown (instance (symbol 0 (t.Resource 4))) ≡ None }
{}

/// A nested resource, and a child of an element of a loop.
pub fn children()
    ensures nested { shown (w.field (t.Resource 5) f.Id)
        ≡ Some (text (codes "/subscriptions/s/resourceGroups/g/providers/T.N/a/r/b/c")) }
    ensures own_name { shown (w.field (t.Resource 5) f.Name) ≡ Some (text (codes "c")) }
    ensures whole_type { shown (w.field (t.Resource 5) f.Type) ≡ Some (text (codes "T.N/a/b")) }
    ensures version { shown (w.field (t.Resource 5) f.ApiVersion) ≡ Some (text (codes "1")) }
    ensures of_an_element { shown (w.field (t.Resource 7) f.Id)
        ≡ Some (text (codes "/subscriptions/s/resourceGroups/g/providers/T.N/a/x-0/b/h")) }
{}

/// An element of a loop is the declaration read with its item and its index, also where no such instance is there.
pub fn elements()
    ensures name { shown (w.field_at (t.ResourceLoop 6) (w.number (pos 1)) f.Name) ≡ Some (text (codes "y-1")) }
    ensures beyond { shown (w.field_at (t.ResourceLoop 6) (w.number (pos 2)) f.Name) ≡ None }
    ensures kind { looks (w.field_at (t.ResourceLoop 6) (w.parameter 0) f.Type) ≡ [] }
    ensures reads { looks (w.field_at (t.ResourceLoop 6) (w.number (pos 1)) f.Name)
        ≡ cell.parameter [] (codes "list") ∷ [] }
{}

/// A module without a name has that of its symbol, in a loop with its index. Its output is that of the included module
/// of the file with its name.
pub fn modules()
    ensures name { shown (w.field (t.Module 8 1) f.Name) ≡ Some (text (codes "m")) }
    ensures in_a_loop { shown (w.field_at (t.ModuleLoop 9 1) (w.number (pos 1)) f.Name) ≡ Some (text (codes "n-1")) }
    ensures output { shown (output (symbol 0 (t.Module 8 1)) 0 0) ≡ Some (text (codes "of m")) }
    ensures reads { looks (output (symbol 0 (t.Module 8 1)) 0 0)
        ≡ cell.deployments [] ∷ cell.output (step 8 0 ∷ []) (codes "o") ∷ [] }
    ensures of_an_element { shown (output (element 0 (t.ModuleLoop 9 1) (w.number (pos 1))) 0 0)
        ≡ Some (text (codes "of n")) }
    ensures left_away { shown (output (element 0 (t.ModuleLoop 9 1) (w.number (pos 0))) 0 0) ≡ None }
    ensures nowhere { shown (output (element 0 (t.ModuleLoop 9 1) (w.number (pos 7))) 0 0) ≡ None }
{}
