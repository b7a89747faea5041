// The limits of the language and of the service, each with its unit.

/// How deep the parts of an expression nest at most, in templates and in Bicep files. A text, a number or a name
/// nests 0.
pub const MAX_EXPRESSION_NESTING: u32 = 64;

/// How many characters the text of a template expression has at most, its brackets included.
pub const MAX_EXPRESSION_CHARACTERS: usize = 24_576;

/// How deep the value of a member of a literal body nests at most, so that its template is within
/// `MAX_VALUE_NESTING`.
pub const MAX_LITERAL_NESTING: u32 = 90;

/// How deep a value that is evaluated, a body or an output nests at most.
pub const MAX_VALUE_NESTING: u32 = 100;

/// How deep the state of a resource nests at most: a body with members around it.
pub const MAX_STATE_NESTING: u32 = 110;

/// How deep a JSON value nests at most. A scalar nests 0; an array or object nests one more than its deepest part.
pub const MAX_JSON_NESTING: u32 = 120;

/// How many bytes a source file has at most.
pub const MAX_FILE_BYTES: usize = 4_194_304;

/// How many bytes the JSON text of a template has at most.
pub const MAX_TEMPLATE_BYTES: usize = 4_194_304;

/// How many resources a template has at most, each copy counted.
pub const MAX_RESOURCES: usize = 800;

/// How often a loop repeats at most.
pub const MAX_COPY_COUNT: i64 = 800;
