// What holds of cells and of what they are by others. A law has no body: its contract is the law.
ghost use Rattle.std.specs.Prelude.{◌≡◌, ◌<◌, ◌↔◌, ℕ, Bool, true, List, Option, Some, None, if◌then◌else◌};
ghost use Rattle.arm_value.specs.Json.{Json};
ghost use Rattle.reading.specs.Reading.{Reading};
ghost use Rattle.reading.specs.World.{value_in, reads_in, Each};
ghost use Rattle.reading.specs.Knowledge.{Known, told, blanked, IsSeen, IsToldThrough};
ghost use Rattle.deploy_cells.specs.Cells.{Cell, World, parent, is_admitted, depth};
ghost use Rattle.deploy_cells.specs.Guarded.{Reads, guarded, told_by};
ghost use Rattle.deploy_cells.specs.Listing.{Named, listing_json, listing_of, sought, IsSought};
ghost use Rattle.deploy_cells.specs.Same.{same};
ghost use Rattle.deploy_cells.specs.Followed.{followed, followed_reads};

/// The test whether two cells are one is right.
pub fn cells_are_told_apart()
    ensures { (c d : Cell) → (same c d ≡ true) ↔ (c ≡ d) }
{}

/// A cell is less deep than the cells that it decides about, so no cell decides about itself.
pub fn parents_are_above()
    ensures { (c d : Cell) → parent c ≡ Some d → depth d < depth c }
{}

/// In a world, a guarded cell is what it is where its parent admits it, and elsewhere it is not there. By knowledge,
/// what is known of its parent decides.
pub fn guarded_cells()
    ensures in_a_world { (w : World) (c : Cell) (r : Reads (Option Json))
        → value_in w (guarded c r) ≡ (if is_admitted w c then value_in w r else Some None) }
    ensures by_knowledge { (p : Cell → Known Json) (c : Cell) (r : Reads (Option Json))
        → told p (guarded c r) ≡ told_by p c (parent c) (told p r) }
{}

/// The value that lists nested deployments is read back.
pub fn listings_read_back()
    ensures { (nss : List (List Named)) → listing_of (listing_json nss) ≡ nss }
{}

/// What is sought among nested deployments by a test of names: an included instance whose name passes it, or else that
/// there are only instances that are left away, or none.
pub fn nested_deployments_are_sought()
    ensures { (test : List ℕ → Bool) (nss : List (List Named)) → IsSought test nss (sought test (listing_json nss)) }
{}

/// A reading that follows others has one of them in the place of each cell. In a world in which these have the
/// values of the cells that are read, it has the same value, and reads what they read, one after another. Where
/// exactly as much is known of each cell that is read as of the reading in its place, the result is the same, and in
/// place of a cell that is waited for it is the one that the reading of this cell waits for.
pub fn reading_followed<C, D, J, K, A>()
    ensures in_a_world { (w : D → Option K) (v : C → Option J) (h : C → Reading D K (Option J)) (r : Reading C J A)
        → Each (λ c. value_in w (h c) ≡ Some (v c)) (reads_in v r)
        → (value_in w (followed h r) ≡ value_in v r)
        × (reads_in w (followed h r) ≡ followed_reads w h (reads_in v r)) }
    ensures by_knowledge { (p : D → Known K) (q : C → Known J) (h : C → Reading D K (Option J)) (r : Reading C J A)
        → Each (λ c. IsSeen (q c) (told p (h c))) (reads_in (blanked q) r)
        → IsToldThrough (λ c. told p (h c)) (told q r) (told p (followed h r)) }
{}
