// The patterns of paths, made once and kept.

ghost use Rattle.std.specs.Prelude.{◌≡◌, IfOk};
ghost use Rattle.http_routes.specs.Patterns.{patterns, pattern_of};

use crate::pattern::{Pattern, patterns};
use arm_value::OutOfMemory;
use matchit::Router;
use std::alloc::Global;

/// The five patterns of paths, by which routes are found. They are made once, and used for any number of targets.
#[derive(Drop)]
pub struct Routes {
    router: Router<Pattern>,
    ghost whole: { router ≡ patterns },
}

impl Routes {
    /// The five patterns.
    pub fn new(alloc: Global) -> Result<Routes, OutOfMemory> {
        let router = patterns(alloc)?;
        Ok(Routes { router })
    }

    /// The pattern that the path matches, in letters of any case.
    pub(crate) fn pattern_of(
        &self,
        alloc: Global,
        path: &str,
    ) -> Result<Option<Pattern>, OutOfMemory>
        ensures { IfOk result (λ pattern. pattern ≡ pattern_of path.now) }
    {
        let folded = path.to_ascii_lowercase(alloc)?;
        match self.router.at(folded.as_str()) {
            Ok(found) => Ok(Some(*found.value)),
            Err(_) => Ok(None),
        }
    }
}
