//! The functions whose value follows from their arguments alone.

/// A function on numbers.
#[derive(Clone, Copy, Debug, PartialEq, Eq)]
pub enum OnNumbers {
    Add,
    Sub,
    Mul,
    Div,
    Remainder,
    Min,
    Max,
    ToInt,
    Range,
}

/// A function on truth values, or one that compares.
#[derive(Clone, Copy, Debug, PartialEq, Eq)]
pub enum OnTruth {
    Not,
    AlwaysTrue,
    AlwaysFalse,
    AlwaysNull,
    ToBool,
    Equals,
    Less,
    LessOrEquals,
    Greater,
    GreaterOrEquals,
}

/// A function that looks for or cuts parts of texts.
#[derive(Clone, Copy, Debug, PartialEq, Eq)]
pub enum OnTexts {
    ToLower,
    ToUpper,
    Trim,
    Substring,
    Replace,
    Split,
    StartsWith,
    EndsWith,
    IndexOf,
    LastIndexOf,
    Contains,
}

/// A function on arrays and objects.
#[derive(Clone, Copy, Debug, PartialEq, Eq)]
pub enum OnLists {
    Size,
    Empty,
    ToArray,
    CreateArray,
    First,
    Last,
    Skip,
    Take,
    Union,
    Intersection,
    Flatten,
    CreateObject,
    ObjectItems,
    ObjectKeys,
    TryGet,
}

/// A function that prints values, or reads what is printed.
#[derive(Clone, Copy, Debug, PartialEq, Eq)]
pub enum Printing {
    Concat,
    Join,
    PadLeft,
    ToText,
    Format,
    ReadJson,
}

/// A function that encodes or decodes a text, or makes an identity of texts.
#[derive(Clone, Copy, Debug, PartialEq, Eq)]
pub enum Naming {
    ToBase64,
    FromBase64,
    UniqueString,
    Guid,
}

/// A function whose value follows from its arguments alone.
#[derive(Clone, Copy, Debug, PartialEq, Eq)]
pub enum Plain {
    Numbers(OnNumbers),
    Logic(OnTruth),
    Texts(OnTexts),
    Lists(OnLists),
    Prints(Printing),
    Names(Naming),
}
