//! What holds of the machine and the grammar. A law has no body: its contract is the law.

ghost use Rattle.bicep_machine.specs.Spelled.{SpelledIsRead, ReadIsSpelled};

/// A file that tokens spell is read of them, for any limit, and kept as far as the limit allows.
pub fn what_is_spelled_is_read()
    ensures { SpelledIsRead }
{}

/// What is read of tokens is a file that they spell, kept as far as the limit allows.
pub fn what_is_read_is_spelled()
    ensures { ReadIsSpelled }
{}
