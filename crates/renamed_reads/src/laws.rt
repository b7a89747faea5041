//! What holds of readings in worlds and in renamed ones. A law has no body: its contract is the law.
ghost use Rattle.std.specs.Prelude.{◌≡◌, Bool, false, Option, Some};
ghost use Rattle.bicep_emission.specs.Alike.{Alike, seen_in};
ghost use Rattle.cell_renaming.specs.Renaming.{Renaming, IsOneToOne, to_cell, renamed};
ghost use Rattle.deploy_cells.specs.Cells.{Cell, World};
ghost use Rattle.deploy_cells.specs.Followed.{followed};
ghost use Rattle.deploy_cells.specs.Guarded.{Reads, guarded};
ghost use Rattle.reading.specs.Reading.{Reading};
ghost use Rattle.reading.specs.World.{reads_in, Each};
ghost use Rattle.arm_value.specs.Json.{Json};
ghost use Rattle.renamed_reads.specs.Marks.{marked};

/// Where the readings that a cell and its new cell guard have the same value, and both or neither read a marked cell,
/// so it is of the cells.
pub fn guarded_cells_are_alike()
    ensures { (r : Renaming) → IsOneToOne r → (w : World) (marks : Cell → Bool) (c d : Cell)
        (a b : Reads (Option Json)) → to_cell r c ≡ Some d → Alike (renamed r w) (marked r marks) w marks b a
        → Alike (renamed r w) (marked r marks) w marks (guarded d b) (guarded c a) }
{}

/// A reading with others in the places of its cells is alike to it, where each of the others has what the cell in whose
/// place it is has, and reads a marked cell where this one is marked.
pub fn followed_readings_are_alike<C, D, J, K, A>()
    ensures { (w : D → Option K) (m : D → Bool) (v : C → Option J) (n : C → Bool) (h : C → Reading D K (Option J))
        (r : Reading C J A) → Each (λ c. seen_in w m (h c) ≡ (Some (v c), n c)) (reads_in v r)
        → Alike w m v n (followed h r) r }
{}

/// No cell is marked of those that a reading reads which reads no marked cell.
pub fn no_read_is_marked<C, J, A>()
    ensures { (v : C → Option J) (n : C → Bool) (r : Reading C J A) → (seen_in v n r).1 ≡ false
        → Each (λ c. n c ≡ false) (reads_in v r) }
{}
