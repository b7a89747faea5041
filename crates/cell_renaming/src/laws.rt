//! What holds of renamed worlds. A law has no body: its contract is the law.
ghost use Rattle.std.specs.Prelude.{◌≡◌, ◌↔◌, Option, Some, option_map};
ghost use Rattle.arm_value.specs.Json.{Json};
ghost use Rattle.reading.specs.World.{value_in};
ghost use Rattle.deploy_cells.specs.Cells.{Cell, World, parent, admits};
ghost use Rattle.deploy_cells.specs.Guarded.{Reads, guarded, IsWorld};
ghost use Rattle.deploy_cells.specs.Puts.{Desired, IsDesired};
ghost use Rattle.cell_renaming.specs.Renaming.{Renaming, IsOneToOne, to_cell, from_cell, renamed, unrenamed};
ghost use Rattle.cell_renaming.specs.Renaming.{IsRenamable};
ghost use Rattle.cell_renaming.specs.Renamed.{IsRenamed, Stored, IsStored};

/// Cells and new cells are one to one.
pub fn cells_are_one_to_one()
    ensures { (r : Renaming) → IsOneToOne r → (c d : Cell) → (to_cell r c ≡ Some d) ↔ (from_cell r d ≡ Some c) }
{}

/// The parent of a new cell is the new cell of the parent, and admits it by the same values.
pub fn parents_are_renamed()
    ensures parents { (r : Renaming) (c d : Cell) → to_cell r c ≡ Some d
        → option_map (to_cell r) (parent c) ≡ option_map (λ e. Some e) (parent d) }
    ensures admits { (r : Renaming) (c d : Cell) (v : Option Json) → to_cell r c ≡ Some d → admits d v ≡ admits c v }
{}

/// A guarded cell has the same value as its new cell, where the readings that they guard have.
pub fn guarded_cells_are_renamed()
    ensures { (r : Renaming) → IsOneToOne r → (w : World) (c d : Cell) (a b : Reads (Option Json))
        → to_cell r c ≡ Some d → value_in (renamed r w) b ≡ value_in w a
        → value_in (renamed r w) (guarded d b) ≡ value_in w (guarded c a) }
{}

/// A world is desired exactly where the renamed one is, and each desired renamed world is a renaming of one that is
/// desired.
pub fn desired_states_are_renamed()
    ensures forth { (r : Renaming) → IsOneToOne r → (s t : Desired) → IsRenamed r s t → (w : World)
        → IsDesired s w → IsRenamable r w × IsDesired t (renamed r w) }
    ensures back { (r : Renaming) → IsOneToOne r → (s t : Desired) → IsRenamed r s t → (w : World)
        → IsRenamable r w → IsDesired t (renamed r w) → IsDesired s w }
    ensures no_others { (r : Renaming) → IsOneToOne r → (s t : Desired) → IsRenamed r s t → (v : World)
        → IsDesired t v → IsDesired s (unrenamed r v) × ((c : Cell) → renamed r (unrenamed r v) c ≡ v c) }
{}

/// In a desired world and in the renamed one the same is put, and there is the same state at its key: so a provider
/// may have answered both, or neither.
pub fn what_is_put_is_renamed()
    ensures { (r : Renaming) → IsOneToOne r → (s t : Desired) → IsRenamed r s t → (w : World) → IsDesired s w
        → (x : Stored) → IsStored s w x ↔ IsStored t (renamed r w) x }
{}
