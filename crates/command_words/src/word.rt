// A word by itself.

ghost use Rattle.std.specs.Prelude.{◌≡◌};
ghost use Rattle.command_words.specs.Words as spec;

/// A word that is not the first of a command.
#[derive(Clone, Copy)]
pub(crate) enum Word<'a> {
    /// A value: a word that is not empty and does not begin with `-`.
    Plain(&'a str),
    /// `--NAME`: an option, whose value is the next word.
    Named(&'a str),
    /// `--NAME=VALUE`: an option and its value, which is not empty.
    Valued(&'a str, &'a str),
    /// None of these.
    Misplaced,
}

/// What a word is by itself.
pub(crate) fn word_of<'a>(word: &'a str) -> Word<'a>
    ensures { spec.sign_of result ≡ spec.word_of word.now }
{
    match word.strip_prefix('-') {
        None => value_of(word),
        Some(rest) => dashed(rest),
    }
}

// A word that does not begin with `-`.
#[tactic(auto, unfolding(crate::specs::Words::value_of))]
fn value_of<'a>(word: &'a str) -> Word<'a>
    ensures { spec.sign_of result ≡ spec.value_of word.now }
{
    if word.is_empty() {
        Word::Misplaced
    } else {
        Word::Plain(word)
    }
}

// A word by what follows its first `-`.
fn dashed<'a>(rest: &'a str) -> Word<'a>
    ensures { spec.sign_of result ≡ spec.dashed rest.now }
{
    match rest.strip_prefix('-') {
        None => Word::Misplaced,
        Some(option) => option_of(option),
    }
}

// An option by what follows its `--`.
fn option_of<'a>(option: &'a str) -> Word<'a>
    ensures { spec.sign_of result ≡ spec.option_of option.now }
{
    match option.split_once('=') {
        None => Word::Named(option),
        Some((name, value)) => valued(name, value),
    }
}

#[tactic(auto, unfolding(crate::specs::Words::valued))]
fn valued<'a>(name: &'a str, value: &'a str) -> Word<'a>
    ensures { spec.sign_of result ≡ spec.valued name.now value.now }
{
    if value.is_empty() {
        Word::Misplaced
    } else {
        Word::Valued(name, value)
    }
}
