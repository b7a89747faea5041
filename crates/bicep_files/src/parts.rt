// A part of a file, by a declaration and a path from it.

use bicep_tree::{
    Body, Declaration, Decorator, Expr, Label, Member, Object, Resource, Statement, Value,
};

/// A part of a file.
#[derive(Clone, Copy)]
pub enum Part<'a> {
    Statement(&'a Statement),
    /// A resource in a resource, and its decorators.
    Child(&'a [Decorator], &'a Resource),
    Given(&'a Value),
    Item(&'a Expr),
    Decorators(&'a [Decorator]),
}

/// The word that a declaration begins with.
pub fn word_of(declaration: &Declaration) -> &'static str {
    match declaration {
        Declaration::Metadata(_, _, _) => "metadata",
        Declaration::TargetScope(_, _) => "targetScope",
        Declaration::Param(_, _, _) => "param",
        Declaration::ParamWith(_, _, _, _) => "param",
        Declaration::Var(_, _, _) => "var",
        Declaration::Output(_, _, _, _) => "output",
        Declaration::Resource(_) => "resource",
        Declaration::Module(_, _, _, _) => "module",
    }
}

/// The symbol that a declaration gives; none is the empty text.
pub fn symbol_of(declaration: &Declaration) -> &str {
    match declaration {
        Declaration::Metadata(_, name, _) => name.text.as_str(),
        Declaration::TargetScope(_, _) => "",
        Declaration::Param(_, name, _) => name.text.as_str(),
        Declaration::ParamWith(_, name, _, _) => name.text.as_str(),
        Declaration::Var(_, name, _) => name.text.as_str(),
        Declaration::Output(_, name, _, _) => name.text.as_str(),
        Declaration::Resource(resource) => resource.name.text.as_str(),
        Declaration::Module(_, name, _, _) => name.text.as_str(),
    }
}

fn body_object(body: &Body) -> &Object {
    match body {
        Body::Plain(object) => object,
        Body::If(_, _, object) => object,
        Body::Each(_, object) => object,
        Body::EachIf(_, _, _, object) => object,
    }
}

// The expression that is given, that of each item where it is a for-expression.
fn given_expr(value: &Value) -> &Expr {
    match value {
        Value::Plain(expr) => expr,
        Value::Each(_, expr) => expr,
    }
}

fn declared_expr(declaration: &Declaration) -> Option<&Expr> {
    match declaration {
        Declaration::Metadata(_, _, expr) => Some(expr),
        Declaration::TargetScope(_, expr) => Some(expr),
        Declaration::Param(_, _, _) => None,
        Declaration::ParamWith(_, _, _, expr) => Some(expr),
        Declaration::Var(_, _, value) => Some(given_expr(value)),
        Declaration::Output(_, _, _, value) => Some(given_expr(value)),
        Declaration::Resource(_) => None,
        Declaration::Module(_, _, _, _) => None,
    }
}

fn declared_object(declaration: &Declaration) -> Option<&Object> {
    match declaration {
        Declaration::Resource(resource) => Some(body_object(&resource.body)),
        Declaration::Module(_, _, _, body) => Some(body_object(body)),
        other => object_of(declared_expr(other)),
    }
}

fn object_of(expr: Option<&Expr>) -> Option<&Object> {
    match expr {
        Some(Expr::Object(object)) => Some(object),
        _ => None,
    }
}

fn expr_in(part: Part<'_>) -> Option<&Expr> {
    match part {
        Part::Statement(statement) => declared_expr(&statement.declaration),
        Part::Child(_, _) => None,
        Part::Given(value) => Some(given_expr(value)),
        Part::Item(expr) => Some(expr),
        Part::Decorators(_) => None,
    }
}

fn object_in(part: Part<'_>) -> Option<&Object> {
    match part {
        Part::Statement(statement) => declared_object(&statement.declaration),
        Part::Child(_, resource) => Some(body_object(&resource.body)),
        other => object_of(expr_in(other)),
    }
}

fn is_labelled(label: &Label, name: &str) -> bool {
    match label {
        Label::Name(found) => found.text.as_str() == name,
        Label::Quoted(found) => found.text.as_str() == name,
    }
}

// The part that a member is, where it has that name or symbol.
fn named_part<'a>(member: &'a Member, name: &str) -> Option<Part<'a>> {
    match member {
        Member::Property(label, value) => is_labelled(label, name).then_some(Part::Given(value)),
        Member::Child(decorators, resource) => {
            let is_it = resource.name.text.as_str() == name;
            is_it.then_some(Part::Child(decorators.as_slice(), resource))
        }
    }
}

// The first member of that name or symbol.
fn member_named<'a>(object: &'a Object, name: &str) -> Option<Part<'a>> {
    for member in &object.members {
        if let Some(part) = named_part(member, name) {
            return Some(part);
        }
    }
    None
}

// The items of an array, or the arguments of a call.
fn items_of(expr: &Expr) -> &[Expr] {
    match expr {
        Expr::Array(_, items) => items.as_slice(),
        Expr::Call(_, arguments) => arguments.as_slice(),
        _ => &[],
    }
}

fn item_at<'a>(part: Part<'a>, number: &str) -> Option<Part<'a>> {
    let expr = expr_in(part)?;
    let place = number.parse::<usize>().ok()?;
    let item = items_of(expr).get(place)?;
    Some(Part::Item(item))
}

fn decorators_of<'a>(part: Part<'a>) -> Option<Part<'a>> {
    match part {
        Part::Statement(statement) => Some(Part::Decorators(statement.decorators.as_slice())),
        Part::Child(decorators, _) => Some(Part::Decorators(decorators)),
        _ => None,
    }
}

/// The part of a part that a step of a path names: `@` its decorators, a name a member of an object
/// or a resource in it, a number an item of an array or an argument of a call.
pub fn step<'a>(part: Part<'a>, name: &str) -> Option<Part<'a>> {
    if name == "@" {
        return decorators_of(part);
    }
    match object_in(part) {
        Some(object) => member_named(object, name),
        None => item_at(part, name),
    }
}

/// The part at the end of a path, whose steps are separated by dots. An empty path stays.
pub fn part_at<'a>(part: Part<'a>, path: &str) -> Option<Part<'a>> {
    if path.is_empty() {
        return Some(part);
    }
    let mut found = part;
    for name in path.split('.') {
        found = step(found, name)?;
    }
    Some(found)
}

/// The statement of that word and symbol.
pub fn statement_of<'a>(file: &'a [Statement], word: &str, symbol: &str) -> Option<Part<'a>> {
    for statement in file {
        let declaration = &statement.declaration;
        if word_of(declaration) == word && symbol_of(declaration) == symbol {
            return Some(Part::Statement(statement));
        }
    }
    None
}
