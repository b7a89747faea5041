// What routes name.

use arm_ids::{Key, Scope};
use arm_value::Text;

/// A resource group, by its names as the path has them.
#[derive(Drop)]
pub struct GroupAt {
    /// The subscription.
    pub subscription: Text,
    /// The group.
    pub group: Text,
}

/// A deployment, by its names as the path has them.
#[derive(Drop)]
pub struct DeploymentAt {
    /// The subscription.
    pub subscription: Text,
    /// The resource group.
    pub group: Text,
    /// The deployment.
    pub name: Text,
}

/// A lock.
#[derive(Drop)]
pub struct LockAt {
    /// What it is set on.
    pub scope: Scope,
    /// The id of its scope, as the path has it.
    pub id: Text,
    /// Its name, as the path has it.
    pub name: Text,
}

/// A resource.
#[derive(Drop)]
pub struct ResourceAt {
    /// Its key.
    pub key: Key,
    /// Its id, as the path has it.
    pub id: Text,
}
