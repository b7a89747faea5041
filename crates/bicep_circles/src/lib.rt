//! Circles among the symbols of a Bicep file, and orders of these symbols.
//!
//! A caller may rely on `specs/Mentions` and `specs/Links`: which symbols the declaration of a symbol mentions, and on
//! `specs/Orders`: in which orders each symbol comes after these. `symbol_order` returns such an order, or symbols each
//! of which mentions the next, and the last the first. It recurses as deep as expressions nest, and not on the number
//! of symbols.
#![tactic(auto)]

mod declarations;
mod graph;
pub mod laws;
mod links;
mod mentions;
mod order;

pub use links::symbol_links;
pub use order::symbol_order;
