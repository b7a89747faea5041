// What a command prints.

use arm_value::Bytes;

/// What a command prints.
#[derive(Drop)]
pub struct Report {
    /// The text, in UTF-8.
    pub text: Bytes,
    /// The status with which the program ends where the text is printed whole.
    pub status: u8,
}
