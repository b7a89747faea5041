// The form of a template, the mode of a deployment, and the scope of a nested template.

/// How a template lists its resources.
#[derive(Clone, Copy, Debug, PartialEq, Eq)]
pub enum Form {
    /// As an array, without `languageVersion`.
    One,
    /// As an object by symbolic names, with `languageVersion` `2.0`.
    Two,
}

/// What a deployment does with the resources of its group that the template does not have.
#[derive(Clone, Copy, Debug, PartialEq, Eq)]
pub enum Mode {
    /// They stay.
    Incremental,
    /// They are deleted.
    Complete,
}

/// Which parameters and variables the expressions of a nested template see.
#[derive(Clone, Copy, Debug, PartialEq, Eq)]
pub enum Scope {
    /// Those that expressions around the nested deployment see.
    Outer,
    /// Those of the nested template.
    Inner,
}
