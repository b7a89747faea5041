// The everyday files become templates, which are read back.

use arm_template::{Template, read_template};
use arm_value::Value;
use bicep_files::{Sample, hosts, networks, plain, stored, wholes};
use sample_programs::programs::{Outcome, compare, letting_go, outcome_of};
use std::alloc::{AllocError, Global};
use std::test::Fail;
use template_parts::Form;

// The files that modules of the everyday files name.
const MODULES: &str = r#"
--- modules/network.bicep
param name string
param prefixes array
param tags object
output id string = name
output subnetIds array = prefixes
--- modules/database.bicep
param subnetId string
@secure()
param password string
param tags object
output host string = subnetId
--- modules/app.bicep
param appName string
param slot int
param settings array
param tags object
output host string = appName
--- stamp.bicep
param location string
param isPrimary bool
param count int
param peers array
output appId string = location
output summary object = { location: location }
--- peering.bicep
param from string
param to string
param useRemoteGateways bool
output state string = from
"#;

// How many parameters, variables, outputs and resources a template has.
fn write_counts(out: &mut String, template: &Template) -> Result<(), AllocError> {
    let parameters = template.parameters.as_slice().len();
    let variables = template.variables.as_slice().len();
    let outputs = template.outputs.as_slice().len();
    let resources = template.resources.len();
    write!(out, "{parameters} {variables} {outputs} {resources}\n")
}

// What is read of a value.
fn write_read(alloc: Global, out: &mut String, value: &Value) -> Result<(), AllocError> {
    match read_template(alloc, value) {
        Ok(template) => letting_go(write_counts(out, &template), template),
        Err(fault) => {
            let written = write!(out, "{fault}\n");
            letting_go(written, fault)
        }
    }
}

fn write_bytes(alloc: Global, out: &mut String, bytes: &[u8]) -> Result<(), AllocError> {
    match Value::from_json(alloc, bytes) {
        Ok(value) => {
            let written = write_read(alloc, out, &value);
            letting_go(written, value)
        }
        Err(_) => out.push_str("no value\n"),
    }
}

fn write_outcome(alloc: Global, out: &mut String, outcome: &Outcome) -> Result<(), AllocError> {
    match outcome {
        Outcome::Built(bytes) => write_bytes(alloc, out, bytes.as_slice()),
        Outcome::Beyond(_) => out.push_str("beyond\n"),
        Outcome::Refused => out.push_str("refused\n"),
    }
}

// Writes what is read of what a file becomes in the form.
fn write_file(alloc: Global, out: &mut String, form: Form, file: &str) -> Result<(), AllocError> {
    let program = format!(in alloc; "{file}{MODULES}")?;
    let outcome = outcome_of(alloc, program.as_str(), form)?;
    let written = write_outcome(alloc, out, &outcome);
    letting_go(written, outcome)
}

// Compares how many parameters, variables, outputs and resources there are in what files become in the form, a line
// each.
fn check_files(alloc: Global, form: Form, files: &[Sample], wanted: &str) -> Result<(), Fail> {
    let mut found = String::new(alloc);
    for file in files {
        write_file(alloc, &mut found, form, file.0)?;
    }
    compare(found.as_str(), wanted)
}

#[test]
fn files_of_what_is_stored(rt: HostRuntime) -> Result<(), Fail> {
    check_files(
        rt.alloc(),
        Form::One,
        &stored::SAMPLES,
        "4 1 2 3\n4 1 2 2\n5 0 1 3\n4 1 2 4\n3 0 1 3\n4 1 2 3\n",
    )
}

#[test]
fn files_of_networks(rt: HostRuntime) -> Result<(), Fail> {
    check_files(
        rt.alloc(),
        Form::One,
        &networks::SAMPLES,
        "4 0 2 2\n4 4 1 2\n4 0 1 4\n3 2 2 2\n3 0 2 2\n4 1 2 5\n",
    )
}

#[test]
fn files_of_hosts(rt: HostRuntime) -> Result<(), Fail> {
    check_files(
        rt.alloc(),
        Form::One,
        &hosts::SAMPLES,
        "4 1 2 4\n5 3 2 3\n5 2 1 2\n6 1 0 3\n5 0 1 2\n3 0 3 6\n",
    )
}

#[test]
fn files_of_wholes(rt: HostRuntime) -> Result<(), Fail> {
    check_files(
        rt.alloc(),
        Form::One,
        &wholes::SAMPLES,
        "3 1 2 3\n3 3 3 2\n3 2 1 3\n4 1 2 2\n",
    )
}

#[test]
fn files_of_plain_values(rt: HostRuntime) -> Result<(), Fail> {
    check_files(
        rt.alloc(),
        Form::One,
        &plain::SAMPLES,
        "3 9 5 0\n3 14 2 0\n4 16 2 0\n",
    )
}

// In the second form the existing resources are there too: the site of the logs, the account and the network of the
// endpoints, the network and the part of it that others are peered with, the account of the functions, and the vault of
// the roles.
#[test]
fn files_of_what_is_stored_in_the_second_form(rt: HostRuntime) -> Result<(), Fail> {
    check_files(
        rt.alloc(),
        Form::Two,
        &stored::SAMPLES,
        "4 1 2 3\n4 1 2 2\n5 0 1 3\n4 1 2 4\n3 0 1 4\n4 1 2 3\n",
    )
}

#[test]
fn files_of_networks_in_the_second_form(rt: HostRuntime) -> Result<(), Fail> {
    check_files(
        rt.alloc(),
        Form::Two,
        &networks::SAMPLES,
        "4 0 2 2\n4 4 1 2\n4 0 1 6\n3 2 2 2\n3 0 2 4\n4 1 2 5\n",
    )
}

#[test]
fn files_of_hosts_in_the_second_form(rt: HostRuntime) -> Result<(), Fail> {
    check_files(
        rt.alloc(),
        Form::Two,
        &hosts::SAMPLES,
        "4 1 2 4\n5 3 2 4\n5 2 1 2\n6 1 0 3\n5 0 1 2\n3 0 3 6\n",
    )
}

#[test]
fn files_of_wholes_in_the_second_form(rt: HostRuntime) -> Result<(), Fail> {
    check_files(
        rt.alloc(),
        Form::Two,
        &wholes::SAMPLES,
        "3 1 2 3\n3 3 3 2\n3 2 1 4\n4 1 2 2\n",
    )
}

#[test]
fn files_of_plain_values_in_the_second_form(rt: HostRuntime) -> Result<(), Fail> {
    check_files(
        rt.alloc(),
        Form::Two,
        &plain::SAMPLES,
        "3 9 5 0\n3 14 2 0\n4 16 2 0\n",
    )
}
