//! The lexer of Bicep files: which tokens a source is.
//!
//! A caller may rely on what `tokens` ensures: the tokens are those that the source spells, and no
//! others (`specs/Grammar`), each the slice of the source at its place; a source that it refuses has the
//! fault that it names, and no other (`specs/Faults`). What a token means is `Token::value`
//! (`specs/Values`). Nothing here recurses on what a file holds.
#![tactic(auto)]

mod bytes;
mod escapes;
mod fault;
mod front;
mod kind;
mod lexer;
mod marks;
mod skipped;
mod texts;
mod token;
mod value;
mod words;

pub use fault::LexFault;
pub use kind::TokenKind;
pub use lexer::tokens;
pub use token::Token;
