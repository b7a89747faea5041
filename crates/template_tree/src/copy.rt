// Copies of templates.
ghost use Rattle.std.specs.Prelude.{◌≡◌, ◌++◌, ◌∷◌, [], IfOk};
ghost use Rattle.template_tree.specs.View.{resource_tree};

use crate::resource::{Body, Deployment, Resource, Resources, Template};
use arm_value::{ListOf, OutOfMemory, Text};
use std::alloc::Global;
use template_parts::{Copied, Output, Parameter, Variable, copy_all, run_out};

// The resources with one more at their end.
fn with_resource(mut resources: Resources, resource: Resource) -> Result<Resources, OutOfMemory>
    ensures { IfOk result (λ rs. rs ≡ resources ++ resource_tree resource ∷ []) }
{
    match resources.push(resource) {
        Ok(()) => Ok(resources),
        Err(_) => run_out(resources),
    }
}

// The schema and the version of the content.
fn copy_texts(alloc: Global, template: &Template) -> Result<(Text, Text), OutOfMemory>
    ensures { IfOk result (λ t. t ≡ (template.now.schema, template.now.content_version)) }
{
    let schema = template.schema.copy(alloc)?;
    match template.content_version.copy(alloc) {
        Ok(content_version) => Ok((schema, content_version)),
        Err(_) => run_out(schema),
    }
}

// The parameters, the variables and the outputs.
fn copy_lists(
    alloc: Global,
    template: &Template,
) -> Result<(ListOf<Parameter>, ListOf<Variable>, ListOf<Output>), OutOfMemory>
    ensures { IfOk result (λ t. t ≡ (template.now.parameters, template.now.variables, template.now.outputs)) }
{
    let parameters = copy_all(alloc, &template.parameters)?;
    match copy_all(alloc, &template.variables) {
        Ok(variables) => match copy_all(alloc, &template.outputs) {
            Ok(outputs) => Ok((parameters, variables, outputs)),
            Err(_) => run_out((parameters, variables)),
        },
        Err(_) => run_out(parameters),
    }
}

// The template again, with these resources.
fn template_with(
    alloc: Global,
    template: &Template,
    resources: Resources,
) -> Result<Template, OutOfMemory>
    ensures { IfOk result (λ t. t ≡ record template.now { resources = resources }) }
{
    match copy_texts(alloc, template) {
        Ok(texts) => match copy_lists(alloc, template) {
            Ok(lists) => Ok(Template {
                form: template.form,
                schema: texts.0,
                content_version: texts.1,
                parameters: lists.0,
                variables: lists.1,
                outputs: lists.2,
                resources,
            }),
            Err(_) => run_out((texts, resources)),
        },
        Err(_) => run_out(resources),
    }
}

// The nested deployment again, with these resources.
fn deployment_with(
    alloc: Global,
    deployment: &Deployment,
    resources: Resources,
) -> Result<Deployment, OutOfMemory>
    ensures { IfOk result (λ d. d
        ≡ record deployment.now { template = record deployment.now.template { resources = resources } }) }
{
    match copy_all(alloc, &deployment.parameters) {
        Ok(parameters) => match template_with(alloc, &deployment.template, resources) {
            Ok(template) => Ok(Deployment {
                scope: deployment.scope,
                parameters,
                template,
            }),
            Err(_) => run_out(parameters),
        },
        Err(_) => run_out(resources),
    }
}

// The resource again, with this body and these children.
fn resource_with(
    alloc: Global,
    resource: &Resource,
    body: Body,
    resources: Resources,
) -> Result<Resource, OutOfMemory>
    ensures { IfOk result (λ r. r ≡ record resource.now { body = body; resources = resources }) }
{
    match resource.declaration.copied(alloc) {
        Ok(declaration) => Ok(Resource {
            declaration,
            body,
            resources,
        }),
        Err(_) => run_out((body, resources)),
    }
}

// The body again.
#[cycle(copy)]
fn copy_body(alloc: Global, body: &Body) -> Result<Body, OutOfMemory>
    ensures { IfOk result (λ b. b ≡ body.now) }
{
    match body {
        Body::Members(fields) => Ok(Body::Members(fields.copy(alloc)?)),
        Body::Deployment(deployment) => {
            let resources = deployment.template.resources.copy(alloc)?;
            Ok(Body::Deployment(deployment_with(alloc, deployment, resources)?))
        }
    }
}

// The resource again.
#[cycle(copy)]
fn copy_resource(alloc: Global, resource: &Resource) -> Result<Resource, OutOfMemory>
    ensures { IfOk result (λ r. r ≡ resource.now) }
{
    let resources = resource.resources.copy(alloc)?;
    match copy_body(alloc, &resource.body) {
        Ok(body) => resource_with(alloc, resource, body, resources),
        Err(_) => run_out(resources),
    }
}

impl Resources {
    /// The same resources again.
    #[cycle(copy)]
    pub fn copy(&self, alloc: Global) -> Result<Resources, OutOfMemory>
        ensures { IfOk result (λ r. r ≡ self.now) }
    {
        let mut copies = Resources::new(alloc);
        for resource in self.as_slice() {
            match copy_resource(alloc, resource) {
                Ok(copy) => copies = with_resource(copies, copy)?,
                Err(_) => return run_out(copies),
            }
        }
        Ok(copies)
    }
}

impl Template {
    /// The same template again.
    pub fn copy(&self, alloc: Global) -> Result<Template, OutOfMemory>
        ensures { IfOk result (λ t. t ≡ self.now) }
    {
        let resources = self.resources.copy(alloc)?;
        template_with(alloc, self, resources)
    }
}
