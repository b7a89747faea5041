// What holds of places. A law has no body: its contract is the law.
ghost use Rattle.std.specs.Prelude.{◌++◌, ◌∷◌, [], List, Option, None};
ghost use Rattle.tag_places.specs.Places.{Tag, Places, ArePlaces};

/// A place without a tag that comes last changes nothing.
pub fn untagged_places()
    ensures { (m : Places) (os : List (Option Tag)) → ArePlaces m os → ArePlaces m (os ++ None ∷ []) }
{}
