//! What holds of files and tokens.

ghost use Rattle.bicep_parser.specs.Refused.{SpellOneFile};

/// No tokens spell two files.
pub fn tokens_spell_one_file()
    ensures { SpellOneFile }
{}
