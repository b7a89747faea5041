// What is said of a file.

/// A file; the number of its statements, with the word and symbol of each; some of its parts.
///
/// Each part is a line: a declaration by its word and symbol, a path from there, ` => `, and the
/// shape of what is at its end.
pub type Sample = (&'static str, &'static str, &'static str);
