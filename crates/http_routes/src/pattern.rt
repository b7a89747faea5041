// The patterns of paths.

ghost use Rattle.std.specs.Prelude.{◌≡◌, None, Ok, IfOk};
ghost use Rattle.matchit.specs.Route.{Scan, parse_route};
ghost use Rattle.matchit.specs.Router.{nearest};
ghost use Rattle.http_routes.specs.Patterns.{patterns, with_pattern};

use arm_value::OutOfMemory;
use matchit::{InsertError, Router};
use std::alloc::{AllocError, Global};

/// The pattern of a path.
#[derive(Clone, Copy, Debug, PartialEq, Eq)]
pub enum Pattern {
    /// The resource groups of a subscription.
    Groups,
    /// A resource group.
    Group,
    /// The resources of a group.
    Resources,
    /// What a provider has in a group.
    InGroup,
    /// What a provider has in a subscription.
    InSubscription,
}

/// The five patterns.
pub(crate) fn patterns(alloc: Global) -> Result<Router<Pattern>, OutOfMemory>
    ensures { IfOk result (λ router. router ≡ patterns) }
{
    let router = with_pattern(
        Router::new(alloc),
        "/subscriptions/{s}/resourcegroups",
        Pattern::Groups,
    )?;
    let router = with_pattern(
        router,
        "/subscriptions/{s}/resourcegroups/{g}",
        Pattern::Group,
    )?;
    let router = with_pattern(
        router,
        "/subscriptions/{s}/resourcegroups/{g}/resources",
        Pattern::Resources,
    )?;
    let router = with_pattern(
        router,
        "/subscriptions/{s}/resourcegroups/{g}/providers/{*rest}",
        Pattern::InGroup,
    )?;
    let router = with_pattern(
        router,
        "/subscriptions/{s}/providers/{*rest}",
        Pattern::InSubscription,
    )?;
    Ok(router)
}

// The router with a pattern that conflicts with none of its own.
fn with_pattern(
    mut router: Router<Pattern>,
    text: &str,
    pattern: Pattern,
) -> Result<Router<Pattern>, OutOfMemory>
    requires { (scan : Scan) × (parse_route text.now ≡ Ok scan) × (nearest scan.pattern router ≡ None) }
    ensures { IfOk result (λ all. all ≡ with_pattern text.now pattern router) }
{
    match router.insert(text, pattern) {
        Ok(()) => Ok(router),
        Err(InsertError::OutOfMemory) => Err(AllocError),
        Err(_) => unreachable!(),
    }
}
