//! Templates as values.
//!
//! `write_template` returns the value that states a template: each member under its canonical name, and what may be
//! left out is left out. `template_written` has the definition, and its law: this value describes the template.
#![tactic(auto)]

mod declaration;
mod header;
mod lists;
mod parts;
mod slots;
mod template;
mod variables;

pub use template::write_template;
