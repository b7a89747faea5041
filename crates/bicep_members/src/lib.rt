//! Names that are given twice in the objects and loops of a Bicep file.
//!
//! A caller may rely on `specs/Files`: the first property of an object whose name another before it has, letter by
//! letter and in a module's `params` whatever the case of its ASCII letters, or the first index of a loop that has the
//! name of the item. `specs/Parts` says where objects and loops are looked for. `repeated_member` recurses as deep as
//! expressions and resources nest.
#![tactic(auto)]

mod expressions;
mod files;
mod labels;
mod modules;
mod resources;

pub use files::repeated_member;
