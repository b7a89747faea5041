// What locks forbid.

ghost use Rattle.std.specs.Prelude.{◌≡◌, ◌↔◌, ◌⊎◌, IsTrue, MatchOption, MatchResult};
ghost use Rattle.arm_ids.specs.Scope.{CoversGroup, IsInGroup};
ghost use Rattle.lock_rules.specs.Levels.{forbids_put, forbids_deletion};
ghost use Rattle.lock_rules.specs.Rules.{NoneOf, IsFirst, CoversKey, CoversAt, IsEffective, Forbids, IsForbidding};
ghost use Rattle.lock_rules.specs.Rules.{ForbidsGroup};

use crate::level::Level;
use crate::lock::Lock;
use arm_ids::Key;
use arm_value::Text;

/// The lock that decides about the resource of a key: of those whose scope covers the key, the first
/// of the most restrictive level. It takes no memory.
pub fn effective<'a>(locks: &'a [Lock], key: &Key) -> Option<&'a Lock>
    ensures { MatchOption result (NoneOf (CoversKey key.now) locks.now) (λ lock.
        IsEffective locks.now key.now lock.now) }
{
    match first_at(locks, key, Level::ReadOnly) {
        Some(lock) => Some(lock),
        None => first_at(locks, key, Level::CanNotDelete),
    }
}

// The first lock of this level that covers the key.
fn first_at<'a>(locks: &'a [Lock], key: &Key, level: Level) -> Option<&'a Lock>
    ensures { MatchOption result (NoneOf (CoversAt level key.now) locks.now) (λ lock.
        IsFirst (CoversAt level key.now) locks.now lock.now) }
{
    for lock in locks {
        if covers_at(lock, key, level) {
            return Some(lock);
        }
    }
    None
}

// Whether the lock has this level and covers the key.
fn covers_at(lock: &Lock, key: &Key, level: Level) -> bool
    ensures { IsTrue result ↔ CoversAt level key.now lock.now }
{
    lock.scope.begins(key) && lock.level.same(level)
}

/// Whether the resource of a key may be put. It takes no memory.
///
/// # Errors
///
/// The lock that forbids it: the lock that decides about the key, exactly where that is `ReadOnly`.
pub fn may_put<'a>(locks: &'a [Lock], key: &Key) -> Result<(), &'a Lock>
    ensures { MatchResult result (λ _. NoneOf (Forbids forbids_put key.now) locks.now) (λ lock.
        IsForbidding forbids_put locks.now key.now lock.now) }
{
    let forbidding = first_at(locks, key, Level::ReadOnly);
    match forbidding {
        Some(lock) => Err(lock),
        None => Ok(()),
    }
}

/// Whether the resource of a key may be deleted. It takes no memory.
///
/// # Errors
///
/// The lock that forbids it: the lock that decides about the key, exactly where there is one.
pub fn may_delete<'a>(locks: &'a [Lock], key: &Key) -> Result<(), &'a Lock>
    ensures { MatchResult result (λ _. NoneOf (Forbids forbids_deletion key.now) locks.now) (λ lock.
        IsForbidding forbids_deletion locks.now key.now lock.now) }
{
    match effective(locks, key) {
        Some(lock) => Err(lock),
        None => Ok(()),
    }
}

/// Whether a group of a subscription may be deleted. It takes no memory.
///
/// # Errors
///
/// The first lock that forbids it: one that covers the group, or that is set in the group.
pub fn may_delete_group<'a>(
    locks: &'a [Lock],
    subscription: &Text,
    group: &Text,
) -> Result<(), &'a Lock>
    ensures { MatchResult result (λ _. NoneOf (ForbidsGroup subscription.now group.now) locks.now) (λ lock.
        IsFirst (ForbidsGroup subscription.now group.now) locks.now lock.now) }
{
    for kept in locks {
        if forbids_group(kept, subscription, group) {
            return Err(kept);
        }
    }
    Ok(())
}

// Whether the lock covers the group, or is set in it.
fn forbids_group(lock: &Lock, subscription: &Text, group: &Text) -> bool
    ensures { IsTrue result ↔ ForbidsGroup subscription.now group.now lock.now }
{
    lock.scope.covers_group(subscription, group) || lock.scope.is_in_group(subscription, group)
}
