// Words of a source.

ghost use Rattle.std.specs.Prelude.{◌≡◌, nat_lt, IsTrue, bytes_eq, chars};
ghost use Rattle.std.specs.List.{list_all};

/// Whether the text is the word, which is of ASCII characters.
pub fn is_word(text: &str, word: &str) -> bool
    requires { IsTrue (list_all (λ b. nat_lt b 128) word.now) }
    ensures { result ≡ bytes_eq (chars text.now) word.now }
{
    text == word
}
