// Where locks are kept.

ghost use Rattle.std.specs.Prelude.{◌≡◌, chars, IfOk};
ghost use Rattle.arm_value.specs.Look.{fold};
ghost use Rattle.arm_ids.specs.ScopeId.{scope_id};
ghost use Rattle.lock_rules.specs.Texts.{text_cmp};

use crate::parts::run_out;
use arm_ids::Scope;
use arm_value::{OutOfMemory, Text};
use std::alloc::Global;
use std::cmp::Ordering;

/// Where a lock is kept: the id of its scope and its name, in small ASCII letters.
#[derive(Debug, Drop)]
pub struct Place {
    pub(crate) scope: Text,
    pub(crate) name: Text,
}

impl Place {
    ghost use Rattle.lock_rules.specs.Places.{place_at, place_cmp};

    /// The place of a lock on this scope with this name.
    pub fn of(alloc: Global, scope: &Scope, name: &Text) -> Result<Place, OutOfMemory>
        ensures { IfOk result (λ place. place ≡ place_at scope.now name.now) }
    {
        let scope = folded_id(alloc, scope)?;
        match folded(alloc, name.as_str()) {
            Ok(name) => Ok(Place { scope, name }),
            Err(_) => run_out(scope),
        }
    }

    // Whether the place is below the other, is the other, or is above it.
    pub(crate) fn compare(&self, other: &Place) -> Ordering
        ensures { result ≡ place_cmp self.now other.now }
    {
        match compare(&self.scope, &other.scope) {
            Ordering::Less => Ordering::Less,
            Ordering::Equal => compare(&self.name, &other.name),
            Ordering::Greater => Ordering::Greater,
        }
    }
}

// The id of the scope in small ASCII letters.
fn folded_id(alloc: Global, scope: &Scope) -> Result<Text, OutOfMemory>
    ensures { IfOk result (λ t. t ≡ fold (scope_id scope.now)) }
{
    let id = scope.to_id(alloc)?;
    folded(alloc, id.as_str())
}

// The text in small ASCII letters.
fn folded(alloc: Global, text: &str) -> Result<Text, OutOfMemory>
    ensures { IfOk result (λ t. t ≡ fold (chars text.now)) }
{
    let folded = text.to_ascii_lowercase(alloc)?;
    Ok(Text::from_string(folded))
}

// The order of two texts: that of their bytes.
fn compare(one: &Text, other: &Text) -> Ordering
    ensures { result ≡ text_cmp one.now other.now }
{
    one.as_str().cmp(other.as_str())
}
