// How parts of a file are printed: of a declaration all but the members of its body.

use crate::parts::Part;
use crate::shapes::{add_expr, add_exprs, add_function, add_names, add_text, add_value};
use bicep_tree::{Body, Declaration, Decorator, Expr, Loop, Resource, TypeName};
use std::alloc::AllocError;

fn type_word(name: TypeName) -> &'static str {
    match name {
        TypeName::String => "string",
        TypeName::Int => "int",
        TypeName::Bool => "bool",
        TypeName::Object => "object",
        TypeName::Array => "array",
    }
}

// `[for x in xs: `
fn add_loop(out: &mut String, each: &Loop) -> Result<(), AllocError> {
    add_names(out, &each.names)?;
    add_expr(out, &each.over)?;
    out.push_str(": ")?;
    Ok(())
}

// `if (c) `
fn add_condition(out: &mut String, condition: &Expr) -> Result<(), AllocError> {
    out.push_str("if (")?;
    add_expr(out, condition)?;
    out.push_str(") ")?;
    Ok(())
}

// A body with two dots for its members.
fn add_body(out: &mut String, body: &Body) -> Result<(), AllocError> {
    match body {
        Body::Plain(_) => out.push_str("{..}")?,
        Body::If(_, condition, _) => {
            add_condition(out, condition)?;
            out.push_str("{..}")?;
        }
        Body::Each(each, _) => {
            add_loop(out, each)?;
            out.push_str("{..}]")?;
        }
        Body::EachIf(each, _, condition, _) => {
            add_loop(out, each)?;
            add_condition(out, condition)?;
            out.push_str("{..}]")?;
        }
    }
    Ok(())
}

fn add_resource(out: &mut String, resource: &Resource) -> Result<(), AllocError> {
    add_text(out, &resource.path.text)?;
    if resource.existing {
        out.push_str(" existing")?;
    }
    out.push_str(" = ")?;
    add_body(out, &resource.body)?;
    Ok(())
}

fn add_type(out: &mut String, name: TypeName) -> Result<(), AllocError> {
    out.push_str(type_word(name))?;
    out.push_str(" = ")?;
    Ok(())
}

// What comes after the word and the symbol.
fn add_declaration(out: &mut String, declaration: &Declaration) -> Result<(), AllocError> {
    match declaration {
        Declaration::Metadata(_, _, expr) => add_expr(out, expr)?,
        Declaration::TargetScope(_, expr) => add_expr(out, expr)?,
        Declaration::Param(_, _, name) => out.push_str(type_word(*name))?,
        Declaration::ParamWith(_, _, name, expr) => {
            add_type(out, *name)?;
            add_expr(out, expr)?;
        }
        Declaration::Var(_, _, value) => add_value(out, value)?,
        Declaration::Output(_, _, name, value) => {
            add_type(out, *name)?;
            add_value(out, value)?;
        }
        Declaration::Resource(resource) => add_resource(out, resource)?,
        Declaration::Module(_, _, path, body) => {
            add_text(out, &path.text)?;
            out.push_str(" = ")?;
            add_body(out, body)?;
        }
    }
    Ok(())
}

fn add_decorators(out: &mut String, decorators: &[Decorator]) -> Result<(), AllocError> {
    let mut begun = false;
    for decorator in decorators {
        if begun {
            out.push_str(" ")?;
        }
        out.push_str("@")?;
        add_function(out, &decorator.function)?;
        out.push_str("(")?;
        add_exprs(out, decorator.arguments.as_slice())?;
        out.push_str(")")?;
        begun = true;
    }
    Ok(())
}

/// Adds the part.
pub fn add_part(out: &mut String, part: Part<'_>) -> Result<(), AllocError> {
    match part {
        Part::Statement(statement) => add_declaration(out, &statement.declaration),
        Part::Child(_, resource) => add_resource(out, resource),
        Part::Given(value) => add_value(out, value),
        Part::Item(expr) => add_expr(out, expr),
        Part::Decorators(decorators) => add_decorators(out, decorators),
    }
}
