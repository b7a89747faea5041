//! The cells of a desired state: the values that a template, or a Bicep program, gives when it is deployed.
//!
//! A cell is a parameter, a variable or an output of a scope, how many instances a resource has, of an instance
//! whether it is included and its name, the nested deployments of a scope, or the state at a key (`specs/Cells`). Each
//! cell is there by the value of one other, its parent. What it is then is a reading of other cells
//! (`specs/Guarded`). `specs/Puts` says what a desired state has to meet besides. The laws are in `laws`; there is no
//! other code.
#![tactic(auto)]

pub mod laws;
