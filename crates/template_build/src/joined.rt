// Templates, nested deployments and resources, joined of their parts.

ghost use Rattle.std.specs.Prelude.{◌≡◌, ◌++◌, ◌∷◌, [], Some, option_map, codes, IfOk};
ghost use Rattle.arm_value.specs.View.{json};
ghost use Rattle.template_meaning.specs.Values.{text_in, inside};
ghost use Rattle.template_meaning.specs.Resources.{declaration_of, is_deployment, scope_in, arguments_in};
ghost use Rattle.template_meaning.specs.Describes.{form_of, header_by};
ghost use Rattle.template_tree.specs.View.{header_of, resource_tree};

use arm_value::{ListOf, OutOfMemory, Text, Value};
use std::alloc::Global;
use template_parts::{Form, Output, Parameter, Scope, Variable, run_out};
use template_reading::{
    arguments_in, copy_text, declaration_of, inside, is_word, outputs_in, parameters_in, text_is,
    variables_in,
};
use template_tree::{Body, Deployment, Resource, Resources, Template};

/// The form of the template.
pub fn form_of(value: Option<&Value>) -> Form
    ensures { result ≡ form_of (option_map (λ v. json v.now) value.entry) }
{
    if text_is(inside(value, "languageVersion"), "2.0") {
        return Form::Two;
    }
    Form::One
}

// The schema and the version of the content.
fn texts_of(alloc: Global, value: Option<&Value>) -> Result<(Text, Text), OutOfMemory>
    ensures { IfOk result (λ t. t ≡ (
      text_in (inside (codes "$schema") (option_map (λ v. json v.now) value.entry)),
      text_in (inside (codes "contentVersion") (option_map (λ v. json v.now) value.entry)),
    )) }
{
    let schema = copy_text(alloc, inside(value, "$schema"))?;
    match copy_text(alloc, inside(value, "contentVersion")) {
        Ok(content_version) => Ok((schema, content_version)),
        Err(_) => run_out(schema),
    }
}

// The parameters, the variables and the outputs.
fn lists_of(
    alloc: Global,
    value: Option<&Value>,
) -> Result<(ListOf<Parameter>, ListOf<Variable>, ListOf<Output>), OutOfMemory>
    ensures { IfOk result (λ t. (t.0 ≡ (header_by (option_map (λ v. json v.now) value.entry)).parameters)
        × (t.1 ≡ (header_by (option_map (λ v. json v.now) value.entry)).variables)
        × (t.2 ≡ (header_by (option_map (λ v. json v.now) value.entry)).outputs)) }
{
    let parameters = parameters_in(alloc, inside(value, "parameters"))?;
    match variables_in(alloc, inside(value, "variables")) {
        Ok(variables) => match outputs_in(alloc, inside(value, "outputs")) {
            Ok(outputs) => Ok((parameters, variables, outputs)),
            Err(_) => run_out((parameters, variables)),
        },
        Err(_) => run_out(parameters),
    }
}

/// The template with these resources.
pub fn template_with(
    alloc: Global,
    value: Option<&Value>,
    resources: Resources,
) -> Result<Template, OutOfMemory>
    ensures header { IfOk result (λ t. header_of t ≡ header_by (option_map (λ v. json v.now) value.entry)) }
    ensures resources { IfOk result (λ t. t.resources ≡ resources) }
{
    match texts_of(alloc, value) {
        Ok(texts) => match lists_of(alloc, value) {
            Ok(lists) => Ok(Template {
                form: form_of(value),
                schema: texts.0,
                content_version: texts.1,
                parameters: lists.0,
                variables: lists.1,
                outputs: lists.2,
                resources,
            }),
            Err(_) => run_out((texts, resources)),
        },
        Err(_) => run_out(resources),
    }
}

/// Whether the resource is a nested deployment.
pub fn is_deployment(value: &Value) -> bool
    ensures { result ≡ is_deployment (Some (json value.now)) }
{
    is_word(
        inside(Some(value), "type"),
        "Microsoft.Resources/deployments",
    )
}

// Which parameters and variables the expressions of the nested template see.
fn scope_in(properties: Option<&Value>) -> Scope
    ensures { result ≡ scope_in (option_map (λ v. json v.now) properties.entry) }
{
    let options = inside(properties, "expressionEvaluationOptions");
    if is_word(inside(options, "scope"), "inner") {
        return Scope::Inner;
    }
    Scope::Outer
}

/// The nested deployment with this template.
pub fn deployment_with(
    alloc: Global,
    properties: Option<&Value>,
    template: Template,
) -> Result<Deployment, OutOfMemory>
    ensures { IfOk result (λ d. d ≡ record {
      scope = scope_in (option_map (λ v. json v.now) properties.entry);
      parameters = arguments_in (option_map (λ v. json v.now) properties.entry);
      template = template;
    }) }
{
    match arguments_in(alloc, properties) {
        Ok(parameters) => Ok(Deployment {
            scope: scope_in(properties),
            parameters,
            template,
        }),
        Err(_) => run_out(template),
    }
}

/// The resource with this body and these children.
pub fn resource_with(
    alloc: Global,
    symbol: Option<Text>,
    value: &Value,
    body: Body,
    resources: Resources,
) -> Result<Resource, OutOfMemory>
    ensures { IfOk result (λ r. r ≡ record {
      declaration = declaration_of symbol (Some (json value.now));
      body = body;
      resources = resources;
    }) }
{
    match declaration_of(alloc, symbol, Some(value)) {
        Ok(declaration) => Ok(Resource {
            declaration,
            body,
            resources,
        }),
        Err(_) => run_out((body, resources)),
    }
}

/// The resources with one more at their end.
pub fn with_resource(mut resources: Resources, resource: Resource) -> Result<Resources, OutOfMemory>
    ensures { IfOk result (λ rs. rs ≡ resources ++ resource_tree resource ∷ []) }
{
    match resources.push(resource) {
        Ok(()) => Ok(resources),
        Err(_) => run_out(resources),
    }
}
