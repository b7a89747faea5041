// What holds of needs by tags. A law has no body: its contract is the law.
ghost use Rattle.std.specs.Prelude.{◌≡◌, ◌↔◌, ℕ, List, true, slice_get, Some};
ghost use Rattle.tag_needs.specs.Tags.{Tag, shares, needs_from, IsListed};

/// A pair of one that asks and of another is listed exactly where the other has a tag for which the one asks.
pub fn pairs_by_tags()
    ensures { (asks tags : List (List Tag)) (i j : ℕ) (a t : List Tag) → slice_get asks i ≡ Some a
        → slice_get tags j ≡ Some t → (shares a t ≡ true) ↔ IsListed (i, j) (needs_from 0 asks tags) }
{}
