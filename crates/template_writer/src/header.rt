// All of a template but its resources, and the properties of nested deployments.

ghost use Rattle.std.specs.Prelude.{◌≡◌, ◌∷◌, [], map, codes, Some, IfOk};
ghost use Rattle.arm_value.specs.Json.{IsInOrder};
ghost use Rattle.arm_value.specs.View.{json};
ghost use Rattle.template_tree.specs.View.{header_of};
ghost use Rattle.template_written.specs.Keeps.{KeepsHeader, KeepsVariables};
ghost use Rattle.template_written.specs.Parts.{written_variables, written_argument};
ghost use Rattle.template_written.specs.Slots.{put_slot, put_slots, an_object, object_unless_empty, NestsWithin};
ghost use Rattle.template_written.specs.Slots.{SlotsNest};
ghost use Rattle.template_written.specs.Written.{version_of, text_slots, list_slots, header_slots, options_of};
ghost use Rattle.template_written.specs.Written.{property_slots, deployment_slots};

use crate::lists::{Written, write_all};
use crate::slots::{put_members, put_text, put_value, put_word};
use crate::variables::write_variables;
use arm_value::{Fields, ListOf, OutOfMemory, Value};
use std::alloc::Global;
use template_parts::{Form, Scope, Variable, run_out};
use template_tree::{Deployment, Template};

// The members with the version of the language, where resources have symbolic names.
#[tactic(auto, unfolding(template_written::specs::Slots::put_slot))]
fn put_version(alloc: Global, fields: Fields, form: Form) -> Result<Fields, OutOfMemory>
    ensures { IfOk result (λ ms. ms ≡ put_slot (codes "languageVersion") (version_of form) fields) }
{
    match form {
        Form::One => Ok(fields),
        Form::Two => put_word(alloc, fields, "languageVersion", "2.0"),
    }
}

// The members with the object of these parts under the name, unless there is none.
fn put_all<T: Written>(
    alloc: Global,
    fields: Fields,
    name: &str,
    parts: &ListOf<T>,
) -> Result<Fields, OutOfMemory>
    requires order { IsInOrder (map T.member_of parts.now) }
    requires nests { NestsWithin 119 (object_unless_empty (map T.member_of parts.now)) }
    ensures { IfOk result (λ ms. ms
        ≡ put_slot name.now (object_unless_empty (map T.member_of parts.now)) fields) }
{
    match write_all(alloc, parts) {
        Ok(members) => put_members(alloc, fields, name, members),
        Err(_) => run_out(fields),
    }
}

// The members with the variables, unless there is none.
fn put_variables(
    alloc: Global,
    fields: Fields,
    variables: &ListOf<Variable>,
) -> Result<Fields, OutOfMemory>
    requires keeps { KeepsVariables variables.now }
    requires nests { NestsWithin 119 (object_unless_empty (written_variables variables.now)) }
    ensures { IfOk result (λ ms. ms
        ≡ put_slot (codes "variables") (object_unless_empty (written_variables variables.now)) fields) }
{
    match write_variables(alloc, variables) {
        Ok(members) => put_members(alloc, fields, "variables", members),
        Err(_) => run_out(fields),
    }
}

// The members with the parameters, the variables and the outputs.
fn put_lists(alloc: Global, fields: Fields, template: &Template) -> Result<Fields, OutOfMemory>
    requires keeps { KeepsHeader (header_of template.now) }
    requires nests { SlotsNest 119 (list_slots (header_of template.now)) }
    ensures { IfOk result (λ ms. ms ≡ put_slots (list_slots (header_of template.now)) fields) }
{
    let fields = put_all(alloc, fields, "parameters", &template.parameters)?;
    let fields = put_variables(alloc, fields, &template.variables)?;
    put_all(alloc, fields, "outputs", &template.outputs)
}

// All of a template but its resources.
fn header_members(alloc: Global, template: &Template) -> Result<Fields, OutOfMemory>
    requires keeps { KeepsHeader (header_of template.now) }
    requires nests { SlotsNest 119 (list_slots (header_of template.now)) }
    ensures { IfOk result (λ ms. ms
        ≡ put_slots (list_slots (header_of template.now)) (put_slots (text_slots (header_of template.now)) [])) }
{
    let fields = put_text(alloc, Fields::new(), "$schema", &template.schema)?;
    let fields = put_text(alloc, fields, "contentVersion", &template.content_version)?;
    let fields = put_version(alloc, fields, template.form)?;
    put_lists(alloc, fields, template)
}

/// The template with its resources written so.
pub fn write_header(
    alloc: Global,
    template: &Template,
    resources: Value,
) -> Result<Value, OutOfMemory>
    requires keeps { KeepsHeader (header_of template.now) }
    requires nests { SlotsNest 119 (header_slots (header_of template.now) (json resources)) }
    ensures { IfOk result (λ v. json v ≡ an_object (header_slots (header_of template.now) (json resources))) }
{
    match header_members(alloc, template) {
        Ok(fields) => Ok(Value::Object(put_value(alloc, fields, "resources", resources)?)),
        Err(_) => run_out(resources),
    }
}

// The members with the options of a nested deployment, unless its expressions see what is around it.
#[tactic(auto, unfolding(template_written::specs::Slots::put_slot))]
fn put_options(alloc: Global, fields: Fields, scope: Scope) -> Result<Fields, OutOfMemory>
    ensures { IfOk result (λ ms. ms ≡ put_slot (codes "expressionEvaluationOptions") (options_of scope) fields) }
{
    match scope {
        Scope::Outer => Ok(fields),
        Scope::Inner => match put_word(alloc, Fields::new(), "scope", "inner") {
            Ok(options) => put_value(
                alloc,
                fields,
                "expressionEvaluationOptions",
                Value::Object(options),
            ),
            Err(_) => run_out(fields),
        },
    }
}

// The properties of a nested deployment but its template.
fn property_members(alloc: Global, deployment: &Deployment) -> Result<Fields, OutOfMemory>
    requires order { IsInOrder (map written_argument deployment.now.parameters) }
    requires nests { NestsWithin 119 (object_unless_empty (map written_argument deployment.now.parameters)) }
    ensures { IfOk result (λ ms. ms
        ≡ put_slots (property_slots deployment.now.scope deployment.now.parameters) []) }
{
    let fields = put_word(alloc, Fields::new(), "mode", "Incremental")?;
    let fields = put_options(alloc, fields, deployment.scope)?;
    put_all(alloc, fields, "parameters", &deployment.parameters)
}

// The properties of a nested deployment whose template is written so.
fn write_deployment(
    alloc: Global,
    deployment: &Deployment,
    template: Value,
) -> Result<Value, OutOfMemory>
    requires order { IsInOrder (map written_argument deployment.now.parameters) }
    requires nests { SlotsNest 119 (deployment_slots deployment.now.scope deployment.now.parameters (json template)) }
    ensures { IfOk result (λ v. json v ≡ an_object (deployment_slots deployment.now.scope
        deployment.now.parameters (json template))) }
{
    match property_members(alloc, deployment) {
        Ok(fields) => Ok(Value::Object(put_value(alloc, fields, "template", template)?)),
        Err(_) => run_out(template),
    }
}

/// The body of a nested deployment whose template is written so.
pub fn write_properties(
    alloc: Global,
    deployment: &Deployment,
    template: Value,
) -> Result<Fields, OutOfMemory>
    requires order { IsInOrder (map written_argument deployment.now.parameters) }
    requires nests { NestsWithin 119 (Some (an_object (deployment_slots deployment.now.scope
        deployment.now.parameters (json template)))) }
    ensures { IfOk result (λ ms. ms ≡ put_slots ((
      codes "properties",
      Some (an_object (deployment_slots
          deployment.now.scope deployment.now.parameters (json template))),
    ) ∷ []) []) }
{
    let properties = write_deployment(alloc, deployment, template)?;
    put_value(alloc, Fields::new(), "properties", properties)
}
