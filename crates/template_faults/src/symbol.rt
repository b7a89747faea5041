// Symbolic names of resources.

ghost use Rattle.std.specs.Prelude.{◌≡◌, encode_utf8_all};
ghost use Rattle.std.specs.List.{list_all};
ghost use Rattle.template_faults.specs.Faults.{is_symbol_byte, spell_symbol, is_symbol};

use arm_value::Text;

fn is_symbol_byte(byte: u8) -> bool
    ensures { result ≡ is_symbol_byte byte }
{
    byte.is_ascii_alphanumeric() || matches!(byte, b'_' | b':')
}

fn are_symbol_bytes(name: &[u8]) -> bool
    ensures { result ≡ list_all is_symbol_byte name.now }
{
    name.iter().all(|byte| is_symbol_byte(*byte))
}

// Whether these are the bytes of a symbolic name.
fn spell_symbol(name: &[u8]) -> bool
    ensures { result ≡ spell_symbol name.now }
{
    match name {
        [] => false,
        [_, ..] => are_symbol_bytes(name),
    }
}

/// Whether the text is a symbolic name: one or more ASCII letters, digits, `_` and `:`.
pub fn is_symbol(name: &Text) -> bool
    ensures { result ≡ is_symbol name.now }
{
    spell_symbol(name.as_str().as_bytes())
}
