// Locks.

ghost use Rattle.std.specs.Prelude.{◌≡◌, IfOk};

use crate::level::Level;
use crate::parts::{joined, run_out};
use arm_ids::Scope;
use arm_value::{OutOfMemory, Text};
use std::alloc::Global;

/// A lock on a scope.
#[derive(Debug, Drop)]
pub struct Lock {
    /// What it is set on.
    pub scope: Scope,
    /// Its name.
    pub name: Text,
    /// How much it forbids.
    pub level: Level,
    /// What was noted with it, empty where nothing was.
    pub notes: Text,
}

impl Lock {
    ghost use Rattle.lock_rules.specs.LockIds.{lock_id};

    /// An equal lock.
    pub fn copy(&self, alloc: Global) -> Result<Lock, OutOfMemory>
        ensures { IfOk result (λ lock. lock ≡ self.now) }
    {
        let name = self.name.copy(alloc)?;
        let notes = self.notes.copy(alloc)?;
        match self.scope.copy(alloc) {
            Ok(scope) => Ok(Lock {
                scope,
                name,
                level: self.level,
                notes,
            }),
            Err(_) => run_out((name, notes)),
        }
    }

    /// The id of the lock: the id of its scope, `/providers/Microsoft.Authorization/locks/`, and its
    /// name.
    pub fn id(&self, alloc: Global) -> Result<Text, OutOfMemory>
        ensures { IfOk result (λ id. id ≡ lock_id self.now) }
    {
        let scope = self.scope.to_id(alloc)?;
        joined(
            alloc,
            scope.as_str(),
            "/providers/Microsoft.Authorization/locks/",
            self.name.as_str(),
        )
    }
}
