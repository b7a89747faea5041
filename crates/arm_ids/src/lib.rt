//! Resource ids, the keys that they name, scopes, the resources that a store holds, and members with a meaning.
//!
//! A key is the subscription, the group, the type segments and the name segments of an id, all in small ASCII letters.
//! A caller may rely on it that a key has one type segment more than names, at least one name, and no empty segment.
//! `specs/Id.antt` defines ids, `specs/Scope.antt` and `specs/ScopeId.antt` scopes, `specs/Held.antt` the resources
//! that a store holds, and `specs/Members.antt` which members of a resource declare it.
#![tactic(auto)]

mod entry;
mod fault;
mod held;
mod id;
mod key;
mod members;
mod row;
mod scope;
mod segment;

pub use entry::Entry;
pub use fault::{IdFault, PutFault};
pub use held::Held;
pub use id::{Place, ResourceId, id_text};
pub use key::Key;
pub use members::{
    DEPLOYMENT_TYPE, is_among, is_declaration_member, is_deployment_type, is_refused_member,
};
pub use scope::Scope;
pub use segment::{has_empty_segment, segments};
