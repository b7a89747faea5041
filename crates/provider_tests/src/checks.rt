// How what is found is compared with what is wanted.

use std::test::Fail;

/// Fails where something else is found than wanted.
pub fn compare(asked: &str, found: &str, wanted: &str) -> Result<(), Fail> {
    if found == wanted {
        return Ok(());
    }
    Err(Fail::new(format_args!("{asked} -> {wanted} but {found}")))
}

/// The answer; the part is dropped.
pub fn letting_go<T: Drop, R>(answer: R, _part: T) -> R {
    answer
}

/// The bytes as a text.
pub fn text_of(bytes: &[u8]) -> &str {
    match str::from_utf8(bytes) {
        Ok(text) => text,
        Err(_) => "no text",
    }
}
