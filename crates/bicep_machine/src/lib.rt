//! The machine that reads Bicep: its states, what is open on its stack, and what each token does to them.
//!
//! A caller may rely on `specs/Machine` (`step` is where a token leads, `parsed` what all tokens are read as) and
//! on two laws: the machine reads what the grammar of `bicep_tree` spells, and nothing else. `specs/Views` says
//! which state and stack the types of the code mean, and each function builds one part as the machine does
//! (`specs/Kept`, `specs/Closing`). A part that nests above the limit is not kept, and is no part of another.
#![tactic(auto)]

mod build;
mod closing;
mod discard;
mod filing;
mod frame;
mod kept;
mod laws;
mod pairs;
mod parts;
mod state;
mod word;
mod words;

pub use build::{
    access_of, array_of, call_of, index_of, literal_at, named, not_null_of, parentheses_of,
    text_of, with_hole, with_item,
};
pub use closing::closed;
pub use discard::Discard;
pub use filing::file;
pub use frame::{Assigned, Callee, Frame, Front, Header, close, empty_file, header_of, open};
pub use kept::{Kept, MAX_PART_NESTING, deeper, empty, flat};
pub use laws::{what_is_read_is_spelled, what_is_spelled_is_read};
pub use pairs::pair_of;
pub use parts::{
    body_each, body_each_if, body_if, body_plain, braced, decorator_of, each_of, loop_of,
    no_decorators, object_of, plain_of, property_of, statement_of, with_decorator, with_each,
    with_expression, with_member, with_statement,
};
pub use state::{Next, State, enter, refuse, run_out};
pub use word::{Owner, Word};
pub use words::{
    is_existing, is_for, is_if, is_in, is_resource, is_sys, level_of, namespace_of, type_of,
    word_of,
};
