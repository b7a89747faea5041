//! Templates as trees: what is found by name is a field, and what may hold expressions is a JSON value.
//!
//! A resource has its children under it, and a nested deployment its template. Contracts see resources as the trees of
//! `specs/Tree`; `specs/View` says which tree a resource or a template is. `Template::copy` returns an equal template.
#![tactic(auto)]

mod copy;
mod resource;

pub use resource::{Body, Deployment, Resource, Resources, Template};
