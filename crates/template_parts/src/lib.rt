//! What templates are made of: parameters, variables, outputs, loops, the members that declare a resource, and why a
//! template or a value that is given for a parameter is refused.
//!
//! A value that may hold expressions is a JSON value, as the template has it. A part is found by its name, which is
//! compared after ASCII case folding. `copied` of each type returns an equal value. A contract sees each type by its
//! fields.
#![tactic(auto)]

mod content;
mod copied;
mod declaration;
mod fault;
mod given;
mod limit;
mod looping;
mod mode;
mod output;
mod parameter;
mod value_type;
mod variable;

pub use arm_value::Path;
pub use content::{Argument, Content};
pub use copied::{Copied, copy_all, copy_option, run_out};
pub use declaration::Declaration;
pub use fault::{BindFault, TemplateFault};
pub use given::{Bound, BoundParameter, BoundValue, Given, GivenValue};
pub use limit::Which;
pub use looping::{Batches, ResourceCopy};
pub use mode::{Form, Mode, Scope};
pub use output::Output;
pub use parameter::{Bounds, Parameter};
pub use value_type::ValueType;
pub use variable::Variable;
