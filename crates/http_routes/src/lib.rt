//! Routes: which of the service's resources the target of a request means.
//!
//! A caller may rely on exactly which route each target has, with the parameters that it holds, and on which targets
//! have none. `specs/Patterns.antt` defines the patterns of paths, `specs/Segments.antt` the segments of a path,
//! `specs/Routes.antt` routes, and `specs/Targets.antt` what a target says.
#![tactic(auto)]

mod id;
mod pattern;
mod places;
mod query;
mod route;
mod routes;
mod segment;
mod target;

pub use pattern::Pattern;
pub use places::{DeploymentAt, GroupAt, LockAt, ResourceAt};
pub use route::Route;
pub use routes::Routes;
pub use target::{RouteFault, Target, read_target};
