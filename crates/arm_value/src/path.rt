// JSON pointers: paths into a value (RFC 6901).
ghost use Rattle.std.specs.Prelude.{◌≡◌, ◌∷◌, ◌++◌, [], chars, string_bytes, encode_utf8_all, decimal, IfOk, OnOk};
ghost use Rattle.arm_value.specs.Pointer.{step, token, token_character};

use crate::list_of::ListOf;
use crate::memory::OutOfMemory;
use crate::text::Text;
use std::alloc::Global;
use std::fmt;
use std::fmt::{Display, Formatter, Write};
use std::marker::Model;

/// A place in a JSON value, as a JSON pointer (RFC 6901): `/resources/0/name`.
///
/// Contracts see it as the list of its characters. The empty path is the whole value.
#[derive(Debug, Drop)]
pub struct Path {
    pointer: Text,
}

impl Model for Path {
    ghost use Rattle.std.specs.Prelude.{ℕ, List};

    ghost Value = { List ℕ };

    ghost view = { λ p. p.pointer };
}

// Adds a character of a name as a pointer spells it.
fn push_escaped(escaped: &mut String, c: char) -> Result<(), OutOfMemory>
    ensures { OnOk result (string_bytes escaped.new
        ≡ string_bytes escaped.old ++ encode_utf8_all (token_character c)) }
{
    match c {
        '~' => escaped.push_str("~0")?,
        '/' => escaped.push_str("~1")?,
        _ => escaped.push(c)?,
    }
    Ok(())
}

// The name as a pointer spells it: `~` as `~0`, and `/` as `~1`.
fn escaped(alloc: Global, name: &str) -> Result<String, OutOfMemory>
    ensures { IfOk result (λ t. string_bytes t ≡ encode_utf8_all (token (chars name.now))) }
{
    let mut escaped = String::new(alloc);
    for c in name.chars() {
        push_escaped(&mut escaped, c)?;
    }
    Ok(escaped)
}

impl Path {
    /// The path of the whole value.
    pub fn root(alloc: Global) -> Path
        ensures { result ≡ [] }
    {
        Path {
            pointer: Text::from_string(String::new(alloc)),
        }
    }

    /// The path in the form of a pointer.
    pub fn as_str(&self) -> &str
        ensures bytes { result.now ≡ encode_utf8_all self.now }
        ensures characters { chars result.now ≡ self.now }
    {
        self.pointer.as_str()
    }

    /// The text of the path. It takes no memory.
    pub fn into_text(self) -> Text
        ensures { result ≡ self }
    {
        self.pointer
    }

    /// The path of the member of this name, of the value at this path.
    pub fn member(&self, alloc: Global, name: &str) -> Result<Path, OutOfMemory>
        ensures { IfOk result (λ p. p ≡ self.now ++ step (token (chars name.now))) }
    {
        let name = escaped(alloc, name)?;
        self.below(alloc, name.as_str())
    }

    /// The path of the item at this place, counted from 0, of the value at this path.
    pub fn item(&self, alloc: Global, place: usize) -> Result<Path, OutOfMemory>
        ensures { IfOk result (λ p. p ≡ self.now ++ step (decimal place)) }
    {
        let place = format!(in alloc; "{place}")?;
        self.below(alloc, place.as_str())
    }

    // The path with one more step, which is spelled.
    fn below(&self, alloc: Global, spelled: &str) -> Result<Path, OutOfMemory>
        ensures { IfOk result (λ p. p ≡ self.now ++ step (chars spelled.now)) }
    {
        let above = self.as_str();
        let pointer = format!(in alloc; "{above}/{spelled}")?;
        Ok(Path {
            pointer: Text::from_string(pointer),
        })
    }

    /// This path, and on from there by the other.
    pub fn join(&self, alloc: Global, rest: &Path) -> Result<Path, OutOfMemory>
        ensures { IfOk result (λ p. p ≡ self.now ++ rest.now) }
    {
        let above = self.as_str();
        let rest = rest.as_str();
        let pointer = format!(in alloc; "{above}{rest}")?;
        Ok(Path {
            pointer: Text::from_string(pointer),
        })
    }

    /// The same path again.
    pub fn copy(&self, alloc: Global) -> Result<Path, OutOfMemory>
        ensures { IfOk result (λ p. p ≡ self.now) }
    {
        Ok(Path {
            pointer: self.pointer.copy(alloc)?,
        })
    }
}

impl Display for Path {
    ghost use Rattle.std.specs.Prelude.{Some, encode_utf8_all};

    ghost output = { λ p. Some (encode_utf8_all p) };

    fn fmt<W: Write>(&self, f: &mut Formatter<W>) -> fmt::Result {
        f.write_str(self.as_str())
    }
}

/// A list of paths.
pub type Paths = ListOf<Path>;
