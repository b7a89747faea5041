// How the tasks and needs of programs are asked for.

use sample_deployments::facts::check_facts;
use sample_deployments::planning::planned;
use sample_programs::programs::outcome_text;
use std::alloc::{AllocError, Global};
use std::test::Fail;
use template_parts::{Form, Mode};

// The files that modules of the everyday files name.
const MODULES: &str = r#"
--- modules/network.bicep
param name string
param prefixes array
param tags object
output id string = name
output subnetIds array = [ '${name}-web', '${name}-data' ]
--- modules/database.bicep
param subnetId string
@secure()
param password string
param tags object
output host string = subnetId
--- modules/app.bicep
param appName string
param slot int
param settings array
param tags object
output host string = appName
--- stamp.bicep
param location string
param isPrimary bool
param count int
param peers array
output appId string = location
output summary object = { location: location }
--- peering.bicep
param from string
param to string
param useRemoteGateways bool
output state string = from
"#;

// A program with one module, which is a file with these arguments.
fn program(alloc: Global, file: &str, arguments: &str) -> Result<String, AllocError> {
    let main = "module m 'file.bicep' = {\n  params: {\n";
    format!(in alloc; "{main}{arguments}\n  }}\n}}\n--- file.bicep\n{file}{MODULES}")
}

// What is said of the plan of such a program, whose template is of the form.
fn plan_text(alloc: Global, form: Form, file: &str, arguments: &str) -> Result<String, Fail> {
    let program = program(alloc, file, arguments)?;
    let template = outcome_text(alloc, program.as_str(), form)?;
    planned(alloc, template.as_str(), Mode::Incremental, "")
}

/// Compares the plan of a file that is deployed as a module with these arguments: each line after `> ` is a fact. The
/// template is of the first form.
pub fn check(alloc: Global, file: &str, arguments: &str, facts: &str) -> Result<(), Fail> {
    let text = plan_text(alloc, Form::One, file, arguments)?;
    check_facts(text.as_str(), facts)
}

/// The same, and the template is of the second form, in which resources are in the order of their symbols.
pub fn check_second(alloc: Global, file: &str, arguments: &str, facts: &str) -> Result<(), Fail> {
    let text = plan_text(alloc, Form::Two, file, arguments)?;
    check_facts(text.as_str(), facts)
}
