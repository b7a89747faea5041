// How expressions are printed: braces are round each operator with its operands.

use arm_value::Text;
use bicep_tree::{
    Access, Expr, Function, Hole, Indexing, Label, Literal, LoopNames, Member, Namespace, Object,
    Operator, Prefix, Value,
};
use std::alloc::AllocError;

fn operator_sign(operator: Operator) -> &'static str {
    match operator {
        Operator::Coalesce => " ?? ",
        Operator::Or => " || ",
        Operator::And => " && ",
        Operator::Equals => " == ",
        Operator::NotEquals => " != ",
        Operator::EqualsInsensitive => " =~ ",
        Operator::NotEqualsInsensitive => " !~ ",
        Operator::Less => " < ",
        Operator::LessOrEqual => " <= ",
        Operator::Greater => " > ",
        Operator::GreaterOrEqual => " >= ",
        Operator::Add => " + ",
        Operator::Subtract => " - ",
        Operator::Multiply => " * ",
        Operator::Divide => " / ",
        Operator::Remainder => " % ",
    }
}

fn prefix_sign(prefix: Prefix) -> &'static str {
    match prefix {
        Prefix::Not => "{!",
        Prefix::Negate => "{-",
    }
}

fn access_sign(access: Access) -> &'static str {
    match access {
        Access::Member => ".",
        Access::SafeMember => ".?",
        Access::Nested => "::",
    }
}

fn index_sign(indexing: Indexing) -> &'static str {
    match indexing {
        Indexing::Plain => "[",
        Indexing::Safe => "[?",
    }
}

fn add_character(out: &mut String, character: char) -> Result<(), AllocError> {
    match character {
        '\n' => out.push_str("\\n")?,
        '\r' => out.push_str("\\r")?,
        '\t' => out.push_str("\\t")?,
        '\'' => out.push_str("\\'")?,
        '\\' => out.push_str("\\\\")?,
        '$' => out.push_str("\\$")?,
        other => out.push(other)?,
    }
    Ok(())
}

// The characters of a text, with an escape where Bicep has one.
fn add_characters(out: &mut String, text: &Text) -> Result<(), AllocError> {
    for character in text.as_str().chars() {
        add_character(out, character)?;
    }
    Ok(())
}

pub fn add_text(out: &mut String, text: &Text) -> Result<(), AllocError> {
    out.push_str("'")?;
    add_characters(out, text)?;
    out.push_str("'")?;
    Ok(())
}

fn add_literal(out: &mut String, literal: &Literal) -> Result<(), AllocError> {
    match literal {
        Literal::Number(number) => write!(out, "{number}")?,
        Literal::Text(text) => add_text(out, text)?,
        Literal::True => out.push_str("true")?,
        Literal::False => out.push_str("false")?,
        Literal::Null => out.push_str("null")?,
    }
    Ok(())
}

fn add_label(out: &mut String, label: &Label) -> Result<(), AllocError> {
    match label {
        Label::Name(name) => out.push_str(name.text.as_str())?,
        Label::Quoted(quoted) => add_text(out, &quoted.text)?,
    }
    out.push_str(": ")?;
    Ok(())
}

pub fn add_function(out: &mut String, function: &Function) -> Result<(), AllocError> {
    match function {
        Function::Plain(name) => out.push_str(name.text.as_str())?,
        Function::Qualified(_, space, name) => {
            out.push_str(match space {
                Namespace::Sys => "sys.",
                Namespace::Az => "az.",
            })?;
            out.push_str(name.text.as_str())?;
        }
    }
    Ok(())
}

// `[for x in ` or `[for (x, i) in `.
pub fn add_names(out: &mut String, names: &LoopNames) -> Result<(), AllocError> {
    out.push_str("[for ")?;
    match names {
        LoopNames::Item(name) => out.push_str(name.text.as_str())?,
        LoopNames::Both(item, index) => {
            out.push_str("(")?;
            out.push_str(item.text.as_str())?;
            out.push_str(", ")?;
            out.push_str(index.text.as_str())?;
            out.push_str(")")?;
        }
    }
    out.push_str(" in ")?;
    Ok(())
}

// The holes of an interpolated text, and the characters after each.
#[cycle(shapes)]
fn add_holes(out: &mut String, holes: &[Hole]) -> Result<(), AllocError> {
    for hole in holes {
        out.push_str("${")?;
        add_expr(out, &hole.value)?;
        out.push_str("}")?;
        add_characters(out, &hole.after)?;
    }
    Ok(())
}

// Expressions in a row, with commas between them.
#[cycle(shapes)]
pub fn add_exprs(out: &mut String, exprs: &[Expr]) -> Result<(), AllocError> {
    let mut begun = false;
    for expr in exprs {
        if begun {
            out.push_str(", ")?;
        }
        add_expr(out, expr)?;
        begun = true;
    }
    Ok(())
}

/// Adds the expression.
#[cycle(shapes)]
pub fn add_expr(out: &mut String, expr: &Expr) -> Result<(), AllocError> {
    match expr {
        Expr::Name(name) => out.push_str(name.text.as_str())?,
        Expr::Literal(_, literal) => add_literal(out, literal)?,
        Expr::Interpolated(_, before, holes) => {
            out.push_str("'")?;
            add_characters(out, before)?;
            add_holes(out, holes.as_slice())?;
            out.push_str("'")?;
        }
        Expr::Object(object) => add_object(out, object)?,
        Expr::Array(_, items) => {
            out.push_str("[")?;
            add_exprs(out, items.as_slice())?;
            out.push_str("]")?;
        }
        Expr::Parentheses(_, inner) => {
            out.push_str("(")?;
            add_expr(out, inner)?;
            out.push_str(")")?;
        }
        Expr::Call(function, arguments) => {
            add_function(out, function)?;
            out.push_str("(")?;
            add_exprs(out, arguments.as_slice())?;
            out.push_str(")")?;
        }
        Expr::Access(inner, access, name) => {
            add_expr(out, inner)?;
            out.push_str(access_sign(*access))?;
            out.push_str(name.text.as_str())?;
        }
        Expr::Index(inner, indexing, index) => {
            add_expr(out, inner)?;
            out.push_str(index_sign(*indexing))?;
            add_expr(out, index)?;
            out.push_str("]")?;
        }
        Expr::NotNull(inner) => {
            add_expr(out, inner)?;
            out.push_str("!")?;
        }
        Expr::Prefix(_, prefix, inner) => {
            out.push_str(prefix_sign(*prefix))?;
            add_expr(out, inner)?;
            out.push_str("}")?;
        }
        Expr::Binary(operator, left, right) => {
            out.push_str("{")?;
            add_expr(out, left)?;
            out.push_str(operator_sign(*operator))?;
            add_expr(out, right)?;
            out.push_str("}")?;
        }
        Expr::Conditional(condition, first, second) => {
            out.push_str("{")?;
            add_expr(out, condition)?;
            out.push_str(" ? ")?;
            add_expr(out, first)?;
            out.push_str(" : ")?;
            add_expr(out, second)?;
            out.push_str("}")?;
        }
    }
    Ok(())
}

#[cycle(shapes)]
fn add_object(out: &mut String, object: &Object) -> Result<(), AllocError> {
    if object.members.is_empty() {
        out.push_str("{}")?;
        return Ok(());
    }
    out.push_str("{ ")?;
    add_members(out, object.members.as_slice())?;
    out.push_str(" }")?;
    Ok(())
}

#[cycle(shapes)]
fn add_members(out: &mut String, members: &[Member]) -> Result<(), AllocError> {
    let mut begun = false;
    for member in members {
        if begun {
            out.push_str(", ")?;
        }
        add_member(out, member)?;
        begun = true;
    }
    Ok(())
}

// A member. Of a resource in an object the symbol and the type alone are printed.
#[cycle(shapes)]
fn add_member(out: &mut String, member: &Member) -> Result<(), AllocError> {
    match member {
        Member::Property(label, value) => {
            add_label(out, label)?;
            add_value(out, value)?;
        }
        Member::Child(_, resource) => {
            out.push_str("resource ")?;
            out.push_str(resource.name.text.as_str())?;
            out.push_str(" ")?;
            add_text(out, &resource.path.text)?;
        }
    }
    Ok(())
}

/// Adds the value, which may be a for-expression.
#[cycle(shapes)]
pub fn add_value(out: &mut String, value: &Value) -> Result<(), AllocError> {
    match value {
        Value::Plain(expr) => add_expr(out, expr)?,
        Value::Each(each, expr) => {
            add_names(out, &each.names)?;
            add_expr(out, &each.over)?;
            out.push_str(": ")?;
            add_expr(out, expr)?;
            out.push_str("]")?;
        }
    }
    Ok(())
}
