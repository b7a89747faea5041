// Texts and bytes of rows, and how they are compared.
use std::alloc::{AllocError, Global};
use std::test::Fail;

// What a letter of a row means: `|` is CR LF, `~` the path of a group, and `@` and `^` what follows it for a deployment
// and for a lock.
fn meant(byte: u8) -> Option<&'static [u8]> {
    match byte {
        b'|' => Some(b"\r\n"),
        b'~' => Some(b"/subscriptions/s/resourceGroups/g"),
        b'@' => Some(b"/providers/Microsoft.Resources/deployments/d"),
        b'^' => Some(b"/providers/Microsoft.Authorization/locks/k"),
        _ => None,
    }
}

/// Adds the bytes that a row means.
pub(crate) fn add_row(bytes: &mut Vec<u8>, row: &str) -> Result<(), AllocError> {
    for byte in row.as_bytes() {
        match meant(*byte) {
            Some(part) => bytes.extend_from_slice(part)?,
            None => bytes.push(*byte)?,
        }
    }
    Ok(())
}

/// The bytes that a row means.
pub(crate) fn bytes_of(alloc: Global, row: &str) -> Result<Vec<u8>, AllocError> {
    let mut bytes = Vec::new(alloc);
    add_row(&mut bytes, row)?;
    Ok(bytes)
}

/// Adds the words, with a blank between two of them. An empty word at the end adds nothing but its blank.
pub(crate) fn say(out: &mut String, words: &[&str]) -> Result<(), AllocError> {
    let mut blank = "";
    for word in words {
        out.push_str(blank)?;
        out.push_str(word)?;
        blank = " ";
    }
    Ok(())
}

/// The bytes as a text.
pub(crate) fn text_of(bytes: &[u8]) -> &str {
    match str::from_utf8(bytes) {
        Ok(text) => text,
        Err(_) => "no text",
    }
}

/// Fails where something else is found than wanted.
pub(crate) fn compare(asked: &str, found: &str, wanted: &str) -> Result<(), Fail> {
    if found == wanted {
        return Ok(());
    }
    Err(Fail::new(format_args!("{asked} => {wanted} but {found}")))
}

/// The answer; the part is dropped.
pub(crate) fn letting_go<T: Drop, R>(answer: R, _part: T) -> R {
    answer
}
