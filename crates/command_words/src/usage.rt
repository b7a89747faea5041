// The usage.

/// The forms of all commands, a line each.
pub const USAGE: &str = "\
usage:
  armdeploy build FILE [--language V]
  armdeploy deploy FILE --group G --name N [--mode M] [--parameters P] [--subscription S] [--language V]
M is Incremental (default) or Complete, V is 1.0 (default) or 2.0.
";
