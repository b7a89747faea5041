// How far names and numbers reach.

ghost use Rattle.std.specs.Prelude.{◌≡◌, ◌^◌, nat_lt, length};
ghost use Rattle.bicep_lexer.specs.Reader.Scanning.{name_length, digits_of};
ghost use Rattle.bicep_lexer.specs.Bytes.{number_from};

use crate::bytes::is_name_byte;

/// The length of the name at the front in bytes.
#[tactic(auto, unfolding(crate::specs::Reader::Scanning::name_length))]
pub fn name_length(bytes: &[u8]) -> usize
    ensures { result ≡ name_length bytes.now }
{
    bytes.iter().take_while(|byte| is_name_byte(**byte)).count()
}

/// The number of decimal digits at the front.
pub fn digits_length(bytes: &[u8]) -> usize
    ensures { result ≡ length (digits_of bytes.now) }
{
    bytes
        .iter()
        .take_while(|byte| byte.is_ascii_digit())
        .count()
}

/// Whether the decimal digits write a number below 2^63.
pub fn is_within(digits: &[u8]) -> bool
    ensures { result ≡ nat_lt (number_from 0 digits.now) (2 ^ 63) }
{
    let mut number: u64 = 0;
    for digit in digits {
        let unit = u64::from(*digit).saturating_sub(48);
        match number.checked_mul(10) {
            None => return false,
            Some(tens) => match tens.checked_add(unit) {
                None => return false,
                Some(more) => number = more,
            },
        }
    }
    number < 0x8000_0000_0000_0000
}
