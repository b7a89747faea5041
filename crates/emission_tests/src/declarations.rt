//! What declarations become, computed from the definitions.
ghost use Rattle.std.specs.Prelude.{◌≡◌, [], ◌++◌, codes};
ghost use Rattle.arm_expr.specs.Print.{printed};
ghost use Rattle.bicep_resolved.specs.declared.leaf.Field.TheVariants as f;
ghost use Rattle.bicep_resolved.specs.declared.leaf.Target.TheVariants as t;
ghost use Rattle.bicep_resolved.specs.Source as s;
ghost use Rattle.emission_tests.specs.Program.{all, shown, variable, field, field_at, member_of, p};

/// A variable that reads state has no entry, so it is its expression.
pub fn variables()
    ensures entry { shown (variable 2) ≡ codes "[variables('v')]" }
    ensures state { shown (variable 3) ≡ codes "[reference(resourceId('T.N/a', parameters('p')), '1').x]" }
{}

/// The id of a resource has the parts of its name: as many as its type has segments after the first.
pub fn parts_of_names()
    ensures one { shown (field (t.Resource 4) f.Id) ≡ codes "[resourceId('T.N/a', parameters('p'))]" }
    ensures two { shown (field (t.Resource 5) f.Id)
        ≡ codes "[resourceId('T.N/a/b', split(parameters('p'), '/')[0]"
        ++ codes ", join(skip(split(parameters('p'), '/'), 1), '/'))]" }
    ensures three { shown (field (t.Resource 6) f.Id)
        ≡ codes "[resourceId('T.N/a/b/c', split(variables('v'), '/')[0], split(variables('v'), '/')[1], "
        ++ codes "join(skip(split(variables('v'), '/'), 2), '/'))]" }
    ensures text { shown (field (t.Resource 7) f.Id) ≡ codes "[resourceId('T.N/a/b/c', 'x', 'y', 'z')]" }
{}

/// The name, the type and the version of a resource, and members of its state.
pub fn fields()
    ensures name { shown (field (t.Resource 5) f.Name) ≡ codes "[parameters('p')]" }
    ensures kind { shown (field (t.Resource 5) f.Type) ≡ codes "['T.N/a/b']" }
    ensures version { shown (field (t.Resource 5) f.ApiVersion) ≡ codes "['2']" }
    ensures nested_kind { shown (field (t.Resource 9) f.Type) ≡ codes "['T.N/a/b']" }
    ensures nested_version { shown (field (t.Resource 9) f.ApiVersion) ≡ codes "['4']" }
    ensures nested_id { shown (field (t.Resource 9) f.Id) ≡ codes "[resourceId('T.N/a/b', 'o', parameters('p'))]" }
    ensures properties { shown (field (t.Resource 4) f.Properties)
        ≡ codes "[reference(resourceId('T.N/a', parameters('p')), '1')]" }
    ensures member { shown (member_of (t.Resource 4) (codes "location"))
        ≡ codes "[reference(resourceId('T.N/a', parameters('p')), '1', 'Full').location]" }
{}

/// The whole name of a child has that of its parent.
pub fn whole_names()
    ensures own { shown (field (t.Resource 9) f.Name) ≡ codes "[parameters('p')]" }
    ensures nested { printed (all.full_name 9 []) ≡ codes "[format('{0}/{1}', 'o', parameters('p'))]" }
    ensures of_an_element { printed (all.full_name 12 [])
        ≡ codes "[format('{0}/{1}', format('{0}-{1}', parameters('xs')[1], 1), 'h')]" }
{}

/// The condition of a nested resource is that of the resource around it and its own.
pub fn conditions()
    ensures none { printed (all.condition 4 []) ≡ codes "[true()]" }
    ensures own { printed (all.condition 8 []) ≡ codes "[equals(parameters('p'), variables('v'))]" }
    ensures both { printed (all.condition 9 [])
        ≡ codes "[and(equals(parameters('p'), variables('v')), equals(variables('v'), 'v'))]" }
    ensures around { printed (all.condition 10 []) ≡ codes "[equals(parameters('p'), variables('v'))]" }
{}

/// Elements of loops: the item and the index are those of the element.
pub fn elements()
    ensures name { shown (field_at (t.ResourceLoop 11) p f.Name)
        ≡ codes "[format('{0}-{1}', parameters('xs')[parameters('p')], parameters('p'))]" }
    ensures id { shown (field_at (t.ResourceLoop 11) p f.Id)
        ≡ codes "[resourceId('T.N/a', format('{0}-{1}', parameters('xs')[parameters('p')], parameters('p')))]" }
    ensures child { shown (field (t.Resource 12) f.Id)
        ≡ codes "[resourceId('T.N/a/b', format('{0}-{1}', parameters('xs')[1], 1), 'h')]" }
{}

/// A module without a name has that of its symbol, in a loop with the index.
pub fn modules()
    ensures name { shown (field (t.Module 13 1) f.Name) ≡ codes "['m']" }
    ensures in_loop { shown (field_at (t.ModuleLoop 14 1) p f.Name) ≡ codes "[format('n-{0}', parameters('p'))]" }
    ensures output { shown (s.output (s.symbol 0 (t.Module 13 1)) 0 0)
        ≡ codes "[reference(resourceId('Microsoft.Resources/deployments', 'm')).outputs.y.value]" }
    ensures output_in_loop { shown (s.output (s.element 0 (t.ModuleLoop 14 1) p) 0 0)
        ≡ codes "[reference(resourceId('Microsoft.Resources/deployments', "
        ++ codes "format('n-{0}', parameters('p')))).outputs.y.value]" }
{}
