// The target of a request: its path and its query.

ghost use Rattle.std.specs.Prelude.{◌≡◌, IsUtf8};
ghost use Rattle.http_routes.specs.Targets.{target_of, route_in, with_query, Reads};

use crate::query::has_api_version;
use crate::route::{Route, route_of};
use crate::routes::Routes;
use crate::segment::segments_of;
use arm_value::OutOfMemory;
use std::alloc::{AllocError, Global};
use std::str;
use thiserror::Error;

/// What a target says.
#[derive(Drop)]
pub struct Target {
    /// The route of its path.
    pub route: Route,
    /// Whether its query has an `api-version` with a value.
    pub versioned: bool,
}

/// Why a target has no route.
#[derive(Clone, Copy, Debug, Error, PartialEq, Eq)]
pub enum RouteFault {
    /// A pattern fits, and a segment decodes to no UTF-8, to nothing, or to a text with a slash.
    #[error("a segment of the path is no name")]
    BadSegment,
    /// No route fits.
    #[error("no route")]
    NoRoute,
    /// Out of memory.
    #[error("out of memory")]
    OutOfMemory,
}

impl From<AllocError> for RouteFault {
    ghost use Rattle.std.specs.Prelude.{◌≡◌};
    ghost use Rattle.http_routes.specs.declared.target.RouteFault.TheVariants.{OutOfMemory};

    ghost from_gives = { λ _ e. e ≡ OutOfMemory };

    fn from(_refused: AllocError) -> RouteFault {
        RouteFault::OutOfMemory
    }
}

/// What the target of a request says.
pub fn read_target(alloc: Global, routes: &Routes, target: &[u8]) -> Result<Target, RouteFault>
    requires { IsUtf8 target.now }
    ensures { Reads (target_of target.now) result }
{
    let Ok(target) = str::from_utf8(target) else {
        unreachable!()
    };
    match target.split_once('?') {
        Some((path, query)) => target_in(alloc, routes, path, query),
        None => target_in(alloc, routes, target, ""),
    }
}

// What a target with this path and this query says.
fn target_in(alloc: Global, routes: &Routes, path: &str, query: &str) -> Result<Target, RouteFault>
    ensures { Reads (with_query (route_in path.now) query.now) result }
{
    match route_in(alloc, routes, path) {
        Ok(route) => Ok(Target {
            route,
            versioned: has_api_version(query),
        }),
        Err(fault) => Err(fault),
    }
}

// The route of the path.
fn route_in(alloc: Global, routes: &Routes, path: &str) -> Result<Route, RouteFault>
    ensures { Reads (route_in path.now) result }
{
    let Some(pattern) = routes.pattern_of(alloc, path)? else {
        return Err(RouteFault::NoRoute);
    };
    let Some(segments) = segments_of(alloc, path)? else {
        return Err(RouteFault::BadSegment);
    };
    match route_of(alloc, pattern, segments.as_slice())? {
        Some(route) => Ok(route),
        None => Err(RouteFault::NoRoute),
    }
}
