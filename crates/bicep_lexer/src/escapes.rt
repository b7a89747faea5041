// The escapes of texts in single quotes.

ghost use Rattle.std.specs.Prelude.{◌≡◌, ◌<◌, IfSome};
ghost use Rattle.bicep_lexer.specs.Escapes.{hexadecimal, simple_escape};
ghost use Rattle.bicep_lexer.specs.Reader.Scanning.{scalar_of, closed_number, braced_scalar, is_escape};

use crate::bytes::begins_with;

/// The value of a hexadecimal digit; `None` for any other character.
pub fn hexadecimal(character: u32) -> Option<u32>
    ensures value { result ≡ hexadecimal character }
    ensures bound { IfSome result (λ digit. digit < 16) }
{
    if character >= 48 && character <= 57 {
        Some(character - 48)
    } else if character >= 65 && character <= 70 {
        Some(character - 55)
    } else if character >= 97 && character <= 102 {
        Some(character - 87)
    } else {
        None
    }
}

/// The number that at most six hexadecimal digits and a `}` write at the front.
pub fn closed_number(bytes: &[u8]) -> Option<u32>
    ensures { result ≡ closed_number 6 0 bytes.now }
{
    let mut number: u32 = 0;
    let mut digits: usize = 6;
    for byte in bytes {
        if *byte == b'}' {
            return Some(number);
        }
        if digits == 0 {
            return None;
        }
        match hexadecimal(u32::from(*byte)) {
            None => return None,
            Some(digit) => {
                number = 16 * number + digit;
                digits -= 1;
            }
        }
    }
    None
}

fn scalar_of(number: u32) -> Option<u32>
    ensures { result ≡ scalar_of number }
{
    if number < 0xd800 || (number >= 0xe000 && number < 0x11_0000) {
        Some(number)
    } else {
        None
    }
}

/// The character of `{h}` at the front, where h is one to six hexadecimal digits of a Unicode scalar value.
#[tactic(auto, unfolding(crate::specs::Reader::Scanning::braced_scalar))]
pub fn braced_scalar(bytes: &[u8]) -> Option<u32>
    ensures { result ≡ braced_scalar bytes.now }
{
    match bytes {
        [first, rest @ ..] => {
            if *first == b'{' && !begins_with(rest, b'}') {
                match closed_number(rest) {
                    Some(number) => scalar_of(number),
                    None => None,
                }
            } else {
                None
            }
        }
        [] => None,
    }
}

/// The character that `\` and this character mean.
pub fn simple_escape(byte: u8) -> Option<u8>
    ensures { result ≡ simple_escape byte }
{
    if byte == b'\\' || byte == b'\'' || byte == b'$' {
        Some(byte)
    } else if byte == b'n' {
        Some(b'\n')
    } else if byte == b'r' {
        Some(b'\r')
    } else if byte == b't' {
        Some(b'\t')
    } else {
        None
    }
}

/// Whether a `\` before these bytes begins an escape.
#[tactic(auto, unfolding(crate::specs::Reader::Scanning::is_escape))]
pub fn is_escape(bytes: &[u8]) -> bool
    ensures { result ≡ is_escape bytes.now }
{
    match bytes {
        [first, rest @ ..] => {
            simple_escape(*first).is_some() || (*first == b'u' && braced_scalar(rest).is_some())
        }
        [] => false,
    }
}
