// What a request asks.

use arm_value::{Bytes, Text, Value};
use http_routes::{DeploymentAt, GroupAt, LockAt, ResourceAt};
use lock_rules::Level;
use template_parts::Mode;

/// What a request asks: one variant for each method of each route, with the parameters of its path and the members of
/// its body.
#[derive(Drop)]
pub enum Ask {
    /// The resource groups of this subscription.
    ListGroups(Text),
    /// That a group is there, in a location.
    PutGroup(GroupAt, Text),
    /// A group.
    GetGroup(GroupAt),
    /// That a group is deleted.
    DeleteGroup(GroupAt),
    /// The resources of a group.
    ListResources(GroupAt),
    /// That a template is deployed.
    Deploy {
        /// The subscription.
        subscription: Text,
        /// The resource group.
        group: Text,
        /// The name of the deployment.
        name: Text,
        /// What becomes of the resources that the template does not have.
        mode: Mode,
        /// The template as compact JSON text.
        template: Bytes,
        /// The parameters, where there are any.
        parameters: Option<Value>,
    },
    /// A deployment.
    GetDeployment(DeploymentAt),
    /// That this deployment goes on; without one, the deployment that is active.
    Resume(Option<DeploymentAt>),
    /// That this deployment is given up; without one, the deployment that is active.
    Abandon(Option<DeploymentAt>),
    /// That a lock is set.
    PutLock {
        /// The lock.
        at: LockAt,
        /// How much it forbids.
        level: Level,
        /// What is noted with it, empty where nothing is.
        notes: Text,
    },
    /// A lock.
    GetLock(LockAt),
    /// That a lock is removed.
    DeleteLock(LockAt),
    /// A resource.
    GetResource(ResourceAt),
    /// That a resource is deleted.
    DeleteResource(ResourceAt),
}
