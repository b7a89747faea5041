// The bytes of names and numbers.

ghost use Rattle.std.specs.Prelude.{◌≡◌, ◌≤◌, IsTrue, length};
ghost use Rattle.bicep_lexer.specs.Bytes.{is_letter, is_name_byte, is_blank, begins_with};

pub fn is_letter(byte: u8) -> bool
    ensures { result ≡ is_letter byte }
{
    byte.is_ascii_alphabetic() || byte == b'_'
}

pub fn is_name_byte(byte: u8) -> bool
    ensures { result ≡ is_name_byte byte }
{
    is_letter(byte) || byte.is_ascii_digit()
}

pub fn is_blank(byte: u8) -> bool
    ensures { result ≡ is_blank byte }
{
    byte == b' ' || byte == b'\t'
}

pub fn begins_with(bytes: &[u8], byte: u8) -> bool
    ensures value { result ≡ begins_with byte bytes.now }
    ensures bound { IsTrue result → 1 ≤ length bytes.now }
{
    match bytes {
        [first, ..] => *first == byte,
        [] => false,
    }
}
