// How long a text is.

ghost use Rattle.std.specs.Prelude.{◌≡◌, ◌<◌, ◌≤◌, chars, length, MatchBool};

/// The number of characters of a text.
pub fn characters(text: &str) -> usize
    ensures { result ≡ length (chars text.now) }
{
    text.chars().count()
}

/// Whether a text has more than so many characters. They are counted only where it has more bytes.
pub fn is_longer(text: &str, most: usize) -> bool
    ensures { MatchBool result (most < length (chars text.now)) (length (chars text.now) ≤ most) }
{
    text.len() > most && characters(text) > most
}
