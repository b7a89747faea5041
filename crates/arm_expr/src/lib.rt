//! Expression texts of templates, such as `[concat('a', parameters('b'))]`, read and written.
//!
//! A caller may rely on `read` giving an expression exactly where the grammar has one within the
//! limits, and on `print` writing a text that is read as the same expression. The grammar is
//! `Spells` of `specs/Grammar`, over the trees of `specs/Tree`; `tree_of` of `specs/View` says which
//! tree an expression is. `meaning_of` says which texts of a template are expressions, and which
//! are plain (`specs/Brackets`).
#![tactic(auto)]

pub mod brackets;
mod characters;
mod dropping;
pub mod expr;
pub mod fault;
pub mod laws;
mod lexer;
mod nesting;
mod parser;
mod printer;
mod reader;
mod room;
mod token;

pub use brackets::{Meaning, escaped, is_bracketed, meaning_of};
pub use expr::{Expr, Exprs};
pub use fault::ExprFault;
pub use printer::{print, text_in_brackets};
pub use reader::read;
