//! The files of a Bicep program without faults are those whose emission is proved to mean the same.
//!
//! A caller may rely on `laws`: what `check` of `bicep_types` ensures gives what `declaration_laws` and `emitted_trees`
//! ask of a file. `specs/Files` says which file a resolved one stands for. There is no other code.
#![tactic(auto)]

pub mod laws;
