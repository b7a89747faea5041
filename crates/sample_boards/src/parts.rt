//! Parts that are put together, and dropped whole.
ghost use Rattle.std.specs.Prelude.{◌≡◌, None};

/// The answer; the part is dropped.
pub fn letting_go<T: Drop, R>(answer: R, _part: T) -> R
    ensures { result ≡ answer }
{
    answer
}

/// Nothing; the part is dropped.
pub fn nothing<T: Drop, R>(_part: T) -> Option<R>
    ensures { result ≡ None }
{
    None
}

/// Both, where both are there.
pub fn both<A: Drop, B: Drop>(one: Option<A>, other: Option<B>) -> Option<(A, B)> {
    match one {
        Some(one) => match other {
            Some(other) => Some((one, other)),
            None => nothing(one),
        },
        None => nothing(other),
    }
}

fn pushed<T: Drop>(mut items: Vec<T>, item: T) -> Option<Vec<T>> {
    match items.push(item) {
        Ok(()) => Some(items),
        Err(_) => nothing(items),
    }
}

/// The items and one more, where both are there.
pub fn with<T: Drop>(items: Option<Vec<T>>, item: Option<T>) -> Option<Vec<T>> {
    match both(items, item) {
        Some((items, item)) => pushed(items, item),
        None => None,
    }
}
