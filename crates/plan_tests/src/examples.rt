// Templates with loops, nested deployments and outputs of these: what is known of their cells, their tasks and needs.
ghost use Rattle.std.specs.Prelude.{◌≡◌, [], ◌∷◌, pos, codes, true, false};
ghost use Rattle.arm_value.specs.Json.{int, bool, text};
ghost use Rattle.reading.specs.Knowledge.{known, told, value};
ghost use Rattle.template_parts.specs.declared.mode.Mode.TheVariants.{Incremental};
ghost use Rattle.template_parts.specs.declared.mode.Scope.TheVariants.{Inner, Outer};
ghost use Rattle.deploy_cells.specs.Cells.{step, count, name, output};
ghost use Rattle.deploy_cells.specs.Puts.{key_at};
ghost use Rattle.plan_cells.specs.Tasks.{enter, leave, put, work};
ghost use Rattle.plan_cells.specs.Needs.{needs};
ghost use Rattle.plan_tests.specs.Sample.{sample, around, known_after};

/// The count of a loop is that of the parameter that its text names.
pub fn a_count_by_a_parameter()
    ensures { known_after sample 2 (count [] 0) ≡ known (int (pos 2)) }
{}

/// The output of a nested deployment is its parameter, which is given around it.
pub fn an_output_by_what_is_given()
    ensures { known_after sample 5 (output (step 1 0 ∷ []) (codes "o")) ≡ known (text (codes "named")) }
{}

/// A resource may have its name from an output that reads no state.
pub fn a_name_by_an_output()
    ensures { known_after sample 7 (name [] (step 2 0)) ≡ known (text (codes "named")) }
{}

/// The tasks of a scope are between its entry and its leave, in the order of resources, with the tasks of a nested
/// scope in the place of its deployment.
pub fn tasks_in_order()
    ensures { told (known_after sample 8) (work sample Incremental []) ≡ value (record {
      tasks = enter [] ∷ put [] (step 0 0) ∷ put [] (step 0 1) ∷ enter (step 1 0 ∷ []) ∷ leave (step 1 0 ∷ [])
          ∷ put [] (step 2 0) ∷ leave [] ∷ [];
      keys = key_at sample.place (codes "T/a") (codes "x") ∷ key_at sample.place (codes "T/a") (codes "x")
          ∷ key_at sample.place (codes "T/b") (codes "named") ∷ [];
    }) }
{}

/// The name of a loop in `dependsOn` means all its instances, and each batch waits for the one before it.
pub fn needs_of_a_loop()
    ensures first { told (known_after sample 8) (needs sample (enter (step 1 0 ∷ [])) (put [] (step 0 0)))
        ≡ value true }
    ensures last { told (known_after sample 8) (needs sample (enter (step 1 0 ∷ [])) (put [] (step 0 1)))
        ≡ value true }
    ensures batch { told (known_after sample 8) (needs sample (put [] (step 0 1)) (put [] (step 0 0))) ≡ value true }
    ensures other { told (known_after sample 8) (needs sample (put [] (step 2 0)) (put [] (step 0 0))) ≡ value false }
{}

/// Under `inner` an expression sees the parameter of the nested template, under `outer` the one around, and a symbol
/// means the nested deployment that it names.
pub fn inner_and_outer()
    ensures of_inner { known_after (around Inner) 5 (output (step 0 0 ∷ []) (codes "r")) ≡ known (text (codes "i")) }
    ensures of_outer { known_after (around Outer) 5 (output (step 0 0 ∷ []) (codes "r")) ≡ known (text (codes "o")) }
    ensures inner_by_symbol { known_after (around Inner) 7 (output [] (codes "z"))
        ≡ known (text (codes "i")) }
    ensures outer_by_symbol { known_after (around Outer) 7 (output [] (codes "z"))
        ≡ known (text (codes "o")) }
{}
