// What holds of places. A law has no body: its contract is the law.

ghost use Rattle.request_places.specs.Places.{PlacesArePlain};

/// Where the names are in form, neither the subscription nor the group of the place has a slash.
pub fn places_are_plain()
    ensures { PlacesArePlain }
{}
