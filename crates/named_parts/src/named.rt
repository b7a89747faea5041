//! Parts that have a name.
ghost use Rattle.std.specs.Prelude.{◌≡◌};

use arm_value::Text;
use template_parts::{Argument, Output, Parameter, Variable};

/// A part of a template that has a name.
pub trait Named: Drop {
    ghost use Rattle.std.specs.Prelude.{◌≡◌, ℕ, List};

    /// The name of the part.
    ghost name_of: { Self → List ℕ };

    /// The name of the part.
    fn name(&self) -> &Text
        ensures { result.now ≡ name_of self.now };
}

impl Named for Parameter {
    ghost name_of = { λ p. p.name };

    fn name(&self) -> &Text {
        &self.name
    }
}

impl Named for Variable {
    ghost name_of = { λ v. v.name };

    fn name(&self) -> &Text {
        &self.name
    }
}

impl Named for Output {
    ghost name_of = { λ o. o.name };

    fn name(&self) -> &Text {
        &self.name
    }
}

impl Named for Argument {
    ghost name_of = { λ a. a.name };

    fn name(&self) -> &Text {
        &self.name
    }
}
