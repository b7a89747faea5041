// How long a text is.
ghost use Rattle.std.specs.Prelude.{◌≡◌, chars, length};

/// The number of characters of a text.
pub fn characters(text: &str) -> usize
    ensures { result ≡ length (chars text.now) }
{
    text.chars().count()
}
