// Texts: lists of Unicode characters.
ghost use Rattle.std.specs.Prelude.{◌≡◌, chars, encode_utf8_all, IfOk, string_bytes};

use crate::memory::OutOfMemory;
use std::alloc::Global;
use std::fmt;
use std::fmt::{Display, Formatter, Write};
use std::marker::Model;

/// A text, which contracts see as the list of its characters.
#[derive(Debug, Drop)]
pub struct Text {
    text: String,
}

impl Model for Text {
    ghost use Rattle.std.specs.Prelude.{ℕ, List, chars, string_bytes};

    ghost Value = { List ℕ };

    ghost view = { λ t. chars (string_bytes t.text) };
}

impl Text {
    /// The same text, owned.
    pub fn of(alloc: Global, text: &str) -> Result<Text, OutOfMemory>
        ensures { IfOk result (λ t. t ≡ chars text.now) }
    {
        let text = String::from_str(alloc, text)?;
        Ok(Text { text })
    }

    /// The text of a string. It takes no memory.
    pub fn from_string(text: String) -> Text
        ensures bytes { encode_utf8_all result ≡ string_bytes text }
        ensures characters { result ≡ chars (string_bytes text) }
    {
        Text { text }
    }

    /// The text as a string. It takes no memory.
    pub fn into_string(self) -> String
        ensures bytes { string_bytes result ≡ encode_utf8_all self }
        ensures characters { chars (string_bytes result) ≡ self }
    {
        self.text
    }

    /// The text.
    pub fn as_str(&self) -> &str
        ensures bytes { result.now ≡ encode_utf8_all self.now }
        ensures characters { chars result.now ≡ self.now }
    {
        self.text.as_str()
    }

    /// The same text again.
    pub fn copy(&self, alloc: Global) -> Result<Text, OutOfMemory>
        ensures { IfOk result (λ t. t ≡ self.now) }
    {
        Text::of(alloc, self.as_str())
    }
}

impl Display for Text {
    ghost use Rattle.std.specs.Prelude.{Some, encode_utf8_all};

    ghost output = { λ t. Some (encode_utf8_all t) };

    fn fmt<W: Write>(&self, f: &mut Formatter<W>) -> fmt::Result {
        f.write_str(self.as_str())
    }
}
