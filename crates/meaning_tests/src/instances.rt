// The cells of a program.
ghost use Rattle.std.specs.Prelude.{◌≡◌, [], ◌∷◌, pos, codes, true, Some, None, option_map};
ghost use Rattle.arm_value.specs.Json.{bool, int, text, array, object, row, pairs};
ghost use Rattle.reading.specs.World.{value_in, reads_in};
ghost use Rattle.deploy_cells.specs.Cells as cell;
ghost use Rattle.deploy_cells.specs.Cells.{step};
ghost use Rattle.bicep_meaning.specs.Instances.{raw, body_value};
ghost use Rattle.meaning_tests.specs.Sample.{program, world};

/// A parameter is what is given for it, whatever the case of the letters of its name; that of a module is its
/// argument.
pub fn parameters()
    ensures given { option_map (value_in world) (raw program (cell.parameter [] (codes "p")))
        ≡ Some (Some (text (codes "one"))) }
    ensures argument { option_map (value_in world) (raw program (cell.parameter (step 8 0 ∷ []) (codes "q")))
        ≡ Some (Some (text (codes "one"))) }
    ensures undeclared { raw program (cell.parameter [] (codes "other")) ≡ None }
{}

/// A loop has as many instances as what it runs over has items. The name of an instance is its full name.
pub fn instances()
    ensures count { option_map (value_in world) (raw program (cell.count [] 6)) ≡ Some (Some (int (pos 2))) }
    ensures one { option_map (value_in world) (raw program (cell.count [] 4)) ≡ Some (Some (int (pos 1))) }
    ensures name { option_map (value_in world) (raw program (cell.name [] (step 6 0)))
        ≡ Some (Some (text (codes "x-0"))) }
    ensures full_name { option_map (value_in world) (raw program (cell.name [] (step 7 0)))
        ≡ Some (Some (text (codes "x-0/h"))) }
    ensures condition { option_map (value_in world) (raw program (cell.included [] (step 5 0)))
        ≡ Some (Some (bool true)) }
    ensures body { option_map (value_in world) (body_value program [] (step 4 0))
        ≡ Some (Some (object (pairs ((codes "size", text (codes "one")) ∷ [])))) }
{}
