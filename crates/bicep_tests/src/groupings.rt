// How the operators of an expression bind.

use bicep_parser::File;
use bicep_tree::{Declaration, Expr, Literal, Operator, Value};
use std::alloc::AllocError;

fn sign(operator: Operator) -> &'static str {
    match operator {
        Operator::Coalesce => "??",
        Operator::Or => "||",
        Operator::And => "&&",
        Operator::Equals => "==",
        Operator::NotEquals => "!=",
        Operator::EqualsInsensitive => "=~",
        Operator::NotEqualsInsensitive => "!~",
        Operator::Less => "<",
        Operator::LessOrEqual => "<=",
        Operator::Greater => ">",
        Operator::GreaterOrEqual => ">=",
        Operator::Add => "+",
        Operator::Subtract => "-",
        Operator::Multiply => "*",
        Operator::Divide => "/",
        Operator::Remainder => "%",
    }
}

// The expression with a pair of braces round each operator and what it binds.
fn show(out: &mut String, e: &Expr) -> Result<(), AllocError> {
    match e {
        Expr::Name(name) => out.push_str(name.text.as_str())?,
        Expr::Literal(_, Literal::Number(_)) => out.push_str("1")?,
        Expr::Parentheses(_, inner) => {
            out.push_str("(")?;
            show(out, inner)?;
            out.push_str(")")?;
        }
        Expr::Access(inner, _, name) => {
            show(out, inner)?;
            out.push_str(".")?;
            out.push_str(name.text.as_str())?;
        }
        Expr::NotNull(inner) => {
            show(out, inner)?;
            out.push_str("!")?;
        }
        Expr::Prefix(_, _, inner) => {
            out.push_str("{~")?;
            show(out, inner)?;
            out.push_str("}")?;
        }
        Expr::Binary(operator, left, right) => {
            out.push_str("{")?;
            show(out, left)?;
            out.push_str(sign(*operator))?;
            show(out, right)?;
            out.push_str("}")?;
        }
        Expr::Conditional(condition, first, second) => {
            out.push_str("{")?;
            show(out, condition)?;
            out.push_str("?")?;
            show(out, first)?;
            out.push_str(":")?;
            show(out, second)?;
            out.push_str("}")?;
        }
        Expr::Index(inner, _, index) => {
            show(out, inner)?;
            out.push_str("[")?;
            show(out, index)?;
            out.push_str("]")?;
        }
        _ => out.push_str("_")?,
    }
    Ok(())
}

/// Adds the expression of a file of one variable, with a pair of braces round each operator and what it binds.
pub fn say_grouping(out: &mut String, file: &File) -> Result<(), AllocError> {
    match file.first() {
        Some(statement) => match &statement.declaration {
            Declaration::Var(_, _, Value::Plain(e)) => show(out, e),
            _ => out.push_str("no variable"),
        },
        None => out.push_str("no statement"),
    }
}
