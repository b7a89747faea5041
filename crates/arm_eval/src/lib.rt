//! The values of template expressions, and of trees with expressions and loops, in an environment
//! in which some entries are not known yet.
#![tactic(auto)]

pub mod copying;
pub mod got;
pub mod laws;
mod looped;
mod names;
pub mod outputs;
pub mod symbols;
mod texts;
mod titled;
mod titles;
mod tree;
mod whole;

pub use arm_env::cell::Cell;
pub use arm_env::entries::{Around, Declared, Entries};
pub use arm_env::env::{
    Env, Looping, ModuleAt, Named, OutputAt, Seen, Slot, Spelled, StateAt, Symbol,
};
pub use arm_env::stop::Stop;
pub use expression_values::value_of;
pub use got::{Got, eval, eval_tree};
pub use looped::looped_value;
pub use outputs::{Content, output_value};
pub use titled::{titled_content, titled_looped, titled_value, titled_value_of};
pub use titles::Titles;
pub use tree::{counting, tree_value};
