// What is asked of the texts of tables, and how the answers are written.

use crate::{building, holding, ids, looking, members, reading, scope_ids, scopes};
use std::alloc::{AllocError, Global};

/// What is asked of a text.
#[derive(Clone, Copy)]
pub enum Question {
    /// What is read of it as JSON.
    Read,
    /// What is read of JSON within so many arrays.
    Nested,
    /// What is read of an object of so many members in falling order.
    Falling,
    /// The member of JSON by a name.
    Member,
    /// Whether two words are one whatever the case of ASCII letters.
    Folded,
    /// What is built of values, members, paths and texts.
    Built(building::Built),
    /// The key of a type and a name.
    KeyOf,
    /// The key of an id.
    KeyRead,
    /// The id of a type and a name, as spelled.
    Spelled,
    /// The text, the full type and the full name of an id.
    Parts,
    /// The copy of a place.
    PlaceCopy,
    /// Entries that are held, by their keys.
    Held(holding::Change),
    /// What a member of a resource is for.
    Role,
    /// Whether it is the type of nested deployments.
    Deployment,
    /// How many segments it has, and whether one is empty.
    Segments,
    /// Whether one of two ids is that of a parent of the other's resource.
    Parent,
    /// Whether one of two ids is that of a scope which covers the other's resource.
    Begins,
    /// The scope of an id.
    ScopeRead,
    /// Whether two ids are of one scope.
    Same,
    /// Whether the copy of the scope of an id is that scope.
    ScopeCopy,
    /// Whether the scope of an id covers the group `g` of the subscription `s`.
    Covers,
    /// Whether the scope of an id is in that group.
    IsIn,
}

// Adds what is answered of values and of what is built of them.
fn say_of_value(
    out: &mut String,
    alloc: Global,
    question: Question,
    asked: &str,
) -> Result<(), AllocError> {
    match question {
        Question::Read => reading::say_read(out, alloc, asked.as_bytes()),
        Question::Nested => reading::say_nested(out, alloc, asked),
        Question::Falling => reading::say_falling(out, alloc),
        Question::Member => looking::say_member(out, alloc, asked),
        Question::Folded => looking::say_folded(out, asked),
        Question::Built(built) => building::say_built(out, alloc, built),
        _ => out.push_str("no answer"),
    }
}

// Adds what is answered of ids, and of members and types of resources.
fn say_of_id(
    out: &mut String,
    alloc: Global,
    question: Question,
    asked: &str,
) -> Result<(), AllocError> {
    match question {
        Question::KeyOf => ids::say_key_of(out, alloc, asked),
        Question::KeyRead => ids::say_key_read(out, alloc, asked),
        Question::Spelled => ids::say_spelled(out, alloc, asked),
        Question::Parts => ids::say_parts(out, alloc, asked),
        Question::PlaceCopy => ids::say_place_copy(out, alloc),
        Question::Held(change) => holding::say_held(out, alloc, change),
        Question::Role => members::say_role(out, alloc, asked),
        Question::Deployment => members::say_deployment(out, alloc, asked),
        Question::Segments => members::say_segments(out, alloc, asked),
        _ => say_of_value(out, alloc, question, asked),
    }
}

/// Adds what is answered.
pub fn say(
    out: &mut String,
    alloc: Global,
    question: Question,
    asked: &str,
) -> Result<(), AllocError> {
    match question {
        Question::Parent => scopes::say_parent(out, alloc, asked),
        Question::Begins => scopes::say_begins(out, alloc, asked),
        Question::ScopeRead => scope_ids::say_scope(out, alloc, asked),
        Question::Same => scope_ids::say_same(out, alloc, asked),
        Question::ScopeCopy => scope_ids::say_copy(out, alloc, asked),
        Question::Covers => scope_ids::say_covers(out, alloc, asked),
        Question::IsIn => scope_ids::say_is_in(out, alloc, asked),
        _ => say_of_id(out, alloc, question, asked),
    }
}
