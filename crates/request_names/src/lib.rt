//! Which names a request may give to groups, deployments and subscriptions.
//!
//! A caller may rely on exactly which names are in form, and on which of several is the first that is not.
//! `specs/Names.antt` defines the forms.
#![tactic(auto)]

mod names;

pub use names::{bad_name, is_deployment_name, is_group_name, is_subscription_name};
