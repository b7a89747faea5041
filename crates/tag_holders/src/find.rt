// Who has a tag for which is asked.
ghost use Rattle.std.specs.Prelude.{◌≡◌, List, map, None};
ghost use Rattle.tag_needs.specs.Tags.{Tag};
ghost use Rattle.tag_holders.specs.Holders.{classes_in, AreKept, AreHolders, found_at, found_asked};

use crate::holders::{Found, Holders, joined};

// Who has the tag.
fn find_one(holders: &Holders, tag: &[usize]) -> Option<Found>
    ensures { result ≡ found_at holders.now tag.now }
{
    holders.get(tag).copied()
}

/// Who has one of the tags for which is asked: nobody, things of one class, or two of different classes.
pub fn find_holders(holders: &Holders, classes: &[Vec<usize>], asks: &[Vec<usize>]) -> Option<Found>
    ensures { (tags : List (List Tag)) → AreKept holders.now tags (classes_in classes.now)
        → AreHolders tags (classes_in classes.now) (map (λ t. t.items) asks.now) result }
{
    let mut found = None;
    for ask in asks {
        let more = find_one(holders, ask.as_slice());
        found = joined(classes, found, more);
    }
    found
}
