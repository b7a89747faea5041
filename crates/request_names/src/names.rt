// The names of groups, deployments and subscriptions.

ghost use Rattle.std.specs.Prelude.{◌≡◌, option_map};
ghost use Rattle.std.specs.List.{list_all};
ghost use Rattle.request_names.specs.Names.{is_name_byte, is_name, is_group_name, is_deployment_name};
ghost use Rattle.request_names.specs.Names.{is_subscription_name, bad_name};

/// Whether a group may have this name: 1 to 90 letters, digits, `_`, `-`, `.`, `(` and `)`.
#[tactic(auto, unfolding(crate::specs::Names::is_group_name))]
pub fn is_group_name(name: &str) -> bool
    ensures { result ≡ is_group_name name.now }
{
    is_name(90, name.as_bytes())
}

/// Whether a deployment may have this name: 1 to 64 of the same, but not `-`.
#[tactic(auto, unfolding(crate::specs::Names::is_deployment_name))]
pub fn is_deployment_name(name: &str) -> bool
    ensures { result ≡ is_deployment_name name.now }
{
    is_name(64, name.as_bytes()) && name != "-"
}

/// Whether a subscription may have this id: 1 to 64 of the characters of a group's name.
#[tactic(auto, unfolding(crate::specs::Names::is_subscription_name))]
pub fn is_subscription_name(name: &str) -> bool
    ensures { result ≡ is_subscription_name name.now }
{
    is_name(64, name.as_bytes())
}

/// The first of the three that may not be one: the name of the group, that of the deployment, the id of the
/// subscription. It takes no memory.
#[tactic(auto, unfolding(crate::specs::Names::bad_name))]
pub fn bad_name<'a>(group: &'a str, deployment: &'a str, subscription: &'a str) -> Option<&'a str>
    ensures { option_map (λ n. n.now) result ≡ bad_name group.now deployment.now subscription.now }
{
    if !is_group_name(group) {
        return Some(group);
    }
    if !is_deployment_name(deployment) {
        return Some(deployment);
    }
    if !is_subscription_name(subscription) {
        return Some(subscription);
    }
    None
}

// Whether these are 1 to `most` characters that a name may have.
fn is_name(most: usize, name: &[u8]) -> bool
    ensures { result ≡ is_name most name.now }
{
    if name.is_empty() {
        return false;
    }
    if name.len() > most {
        return false;
    }
    are_name_bytes(name)
}

fn are_name_bytes(name: &[u8]) -> bool
    ensures { result ≡ list_all is_name_byte name.now }
{
    name.iter().all(|byte| is_name_byte(*byte))
}

fn is_name_byte(byte: u8) -> bool
    ensures { result ≡ is_name_byte byte }
{
    byte.is_ascii_alphanumeric() || matches!(byte, b'_' | b'-' | b'.' | b'(' | b')')
}
