//! Base32 in small letters and without padding.
ghost use Rattle.std.specs.Prelude.{◌≡◌, ◌+◌, ◌*◌, ◌<◌, ◌^◌, length, slice_index, IfOk};
ghost use Rattle.function_identities.specs.Base32.{base32, bits_of, group_of, symbol_of};

use arm_value::OutOfMemory;
use std::alloc::Global;

const SYMBOLS: [u8; 32] = *b"abcdefghijklmnopqrstuvwxyz234567";

fn symbol_of(group: u8) -> char
    requires { group < 32 }
    ensures { result ≡ symbol_of group }
{
    char::from(SYMBOLS[group as usize])
}

// The bit at a place, from the most significant bit of the first byte on; 0 after the last byte.
fn bit_at(bytes: &[u8], place: usize) -> u8
    ensures value { result ≡ slice_index (bits_of bytes.now) place }
    ensures bit { result < 2 }
{
    match bytes.get(place / 8) {
        Some(byte) => (*byte >> (7 - place % 8)) % 2,
        None => 0,
    }
}

// The number of the five bits from a place on.
fn group_at(bytes: &[u8], place: usize) -> u8
    requires { place + 4 < 2 ^ 64 }
    ensures value { result ≡ group_of (slice_index (bits_of bytes.now) place)
        (slice_index (bits_of bytes.now) (place + 1)) (slice_index (bits_of bytes.now) (place + 2))
        (slice_index (bits_of bytes.now) (place + 3))
        (slice_index (bits_of bytes.now) (place + 4)) }
    ensures group { result < 32 }
{
    bit_at(bytes, place) * 16
        + bit_at(bytes, place + 1) * 8
        + bit_at(bytes, place + 2) * 4
        + bit_at(bytes, place + 3) * 2
        + bit_at(bytes, place + 4)
}

/// The bytes in base32 (RFC 4648, section 6), in small letters and without padding.
pub fn base32(alloc: Global, bytes: &[u8]) -> Result<Vec<char>, OutOfMemory>
    requires { length bytes.now < 2 ^ 60 }
    ensures { IfOk result (λ symbols. symbols.items ≡ base32 bytes.now) }
{
    let mut symbols = Vec::new(alloc);
    let mut place = 0usize;
    while place < bytes.len() * 8 {
        symbols.push(symbol_of(group_at(bytes, place)))?;
        place += 5;
    }
    Ok(symbols)
}
