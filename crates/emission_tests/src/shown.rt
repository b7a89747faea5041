// The text of an expression.

use arm_expr::Expr;
use std::alloc::AllocError;

fn put_quoted(out: &mut String, characters: &str) -> Result<(), AllocError> {
    out.push_str("'")?;
    for c in characters.chars() {
        if c == '\'' {
            out.push(c)?;
        }
        out.push(c)?;
    }
    out.push_str("'")?;
    Ok(())
}

#[cycle(showing)]
fn put_all(out: &mut String, items: &[Expr]) -> Result<(), AllocError> {
    let mut first = true;
    for item in items {
        if !first {
            out.push_str(", ")?;
        }
        put(out, item)?;
        first = false;
    }
    Ok(())
}

#[cycle(showing)]
fn put_call(out: &mut String, name: &str, arguments: &[Expr]) -> Result<(), AllocError> {
    out.push_str(name)?;
    out.push_str("(")?;
    put_all(out, arguments)?;
    out.push_str(")")
}

#[cycle(showing)]
fn put_member(out: &mut String, inner: &Expr, name: &str) -> Result<(), AllocError> {
    put(out, inner)?;
    out.push_str(".")?;
    out.push_str(name)
}

#[cycle(showing)]
fn put_index(out: &mut String, index: &Expr) -> Result<(), AllocError> {
    out.push_str("[")?;
    put(out, index)?;
    out.push_str("]")
}

fn put_number(out: &mut String, number: i64) -> Result<(), AllocError> {
    write!(out, "{number}")?;
    Ok(())
}

/// Writes an expression as a template has it, without brackets.
#[cycle(showing)]
pub fn put(out: &mut String, e: &Expr) -> Result<(), AllocError> {
    match e {
        Expr::Text(characters) => put_quoted(out, characters.as_str()),
        Expr::Int(number) => put_number(out, *number),
        Expr::Call(name, arguments) => put_call(out, name.as_str(), arguments.as_slice()),
        Expr::Member(inner, name) => put_member(out, inner, name.as_str()),
        Expr::Index(inner, index) => {
            put(out, inner)?;
            put_index(out, index)
        }
    }
}
