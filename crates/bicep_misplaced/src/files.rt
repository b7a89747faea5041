// What is misplaced in a file.
ghost use Rattle.std.specs.Prelude.{◌≡◌, map};
ghost use Rattle.bicep_tree.specs.View as view;
ghost use Rattle.bicep_misplaced.specs.Files as spec;

use crate::expressions::bad_in;
use crate::resources::{bad_in_body, bad_in_decorators, bad_in_resource};
use crate::spot::{Owner, Spot};
use crate::words::is_copy;
use bicep_tree::{Declaration, Expr, Literal, Name, Statement, Value, is_word};

fn is_group_text(literal: &Literal) -> bool
    ensures { result ≡ spec.is_group_text literal.now }
{
    match literal {
        Literal::Text(text) => is_word(text.as_str(), "resourceGroup"),
        Literal::Number(_) | Literal::True | Literal::False | Literal::Null => false,
    }
}

// Whether it is the only scope.
#[tactic(auto, using(bicep_tree::proofs::ViewLemmas::enums))]
fn is_group(e: &Expr) -> bool
    ensures { result ≡ spec.is_group (view.tree_of e.now) }
{
    match e {
        Expr::Literal(_, literal) => is_group_text(literal),
        Expr::Name(..)
        | Expr::Interpolated(..)
        | Expr::Object(..)
        | Expr::Array(..)
        | Expr::Parentheses(..)
        | Expr::Call(..)
        | Expr::Access(..)
        | Expr::Index(..)
        | Expr::NotNull(..)
        | Expr::Prefix(..)
        | Expr::Binary(..)
        | Expr::Conditional(..) => false,
    }
}

fn bad_scope(e: &Expr) -> Option<usize>
    ensures { result ≡ spec.bad_scope (view.tree_of e.now) }
{
    if is_group(e) {
        return None;
    }
    Some(e.at())
}

// A variable is not named `copy`.
fn bad_variable(name: &Name) -> Option<usize>
    ensures { result ≡ spec.bad_variable name.now }
{
    if is_copy(&name.text) {
        return Some(name.at);
    }
    None
}

// The value of a variable or an output.
#[tactic(auto, using(bicep_tree::proofs::ViewLemmas::enums, bicep_tree::proofs::ViewLemmas::structs))]
fn bad_in_whole(value: &Value) -> Option<usize>
    ensures { result ≡ spec.bad_in_whole (view.value_of value.now) }
{
    match value {
        Value::Plain(e) => bad_in(Spot::Outside, e),
        Value::Each(each, body) => match bad_in(Spot::Outside, &each.over) {
            Some(at) => Some(at),
            None => bad_in(Spot::Outside, body),
        },
    }
}

fn bad_in_declaration(declaration: &Declaration) -> Option<usize>
    ensures { result ≡ spec.bad_in_declaration (view.declaration_of declaration.now) }
{
    match declaration {
        Declaration::Metadata(_, _, e) => bad_in(Spot::Outside, e),
        Declaration::TargetScope(_, e) => bad_scope(e),
        Declaration::Param(_, _, _) => None,
        Declaration::ParamWith(_, _, _, e) => bad_in(Spot::Outside, e),
        Declaration::Var(_, name, value) => match bad_variable(name) {
            Some(at) => Some(at),
            None => bad_in_whole(value),
        },
        Declaration::Output(_, _, _, value) => bad_in_whole(value),
        Declaration::Resource(resource) => bad_in_resource(Owner::Resource, resource),
        Declaration::Module(_, _, _, body) => bad_in_body(Owner::Module, body),
    }
}

fn bad_in_statement(statement: &Statement) -> Option<usize>
    ensures { result ≡ spec.bad_in_statement (view.statement_of statement.now) }
{
    match bad_in_decorators(statement.decorators.as_slice()) {
        Some(at) => Some(at),
        None => bad_in_declaration(&statement.declaration),
    }
}

/// The offset of the first thing in a file that may not be where it is, before any name is found.
pub fn misplaced(file: &[Statement]) -> Option<usize>
    ensures { result ≡ spec.misplaced (view.file_of file.now) }
{
    for statement in file {
        match bad_in_statement(statement) {
            Some(at) => return Some(at),
            None => {}
        }
    }
    None
}
