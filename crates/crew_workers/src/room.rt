// Values are put into room that was taken before, and are dropped whole.

ghost use Rattle.std.specs.Prelude.{◌≡◌, ◌<◌, ◌+◌, ◌++◌, ◌∷◌, [], ℕ, length, slice_index_or, vec_len, vec_items};
ghost use Rattle.std.specs.Prelude.{vec_capacity};

use std::collections::VecDeque;

/// Adds an item to a list that has room for it.
pub fn put<T>(list: &mut Vec<T>, item: T)
    requires { vec_len list.old < vec_capacity list.old }
    ensures items { vec_items list.new ≡ vec_items list.old ++ item ∷ [] }
    ensures len { vec_len list.new ≡ vec_len list.old + 1 }
    ensures capacity { vec_capacity list.new ≡ vec_capacity list.old }
    ensures before { (k : ℕ) (d : T) → k < vec_len list.old
        → slice_index_or (vec_items list.new) k d ≡ slice_index_or (vec_items list.old) k d }
    ensures last { (d : T) → slice_index_or (vec_items list.new) (vec_len list.old) d ≡ item }
{
    list.push_reserved(item);
}

/// Takes the first item of a list that has one.
pub fn take_first<T>(list: &mut VecDeque<T>) -> T
    requires { 0 < length list.old.items }
    ensures { list.old.items ≡ result ∷ list.new.items }
{
    match list.pop_front() {
        Some(first) => first,
        None => unreachable!(),
    }
}

/// Drops a part that is whole.
pub fn let_go<T: Drop>(_part: T) {}
