// The words after a command, one after another.

ghost use Rattle.std.specs.Prelude.{◌≡◌, map, string_bytes, option_map, Some, None, drop};
ghost use Rattle.command_words.specs.Words.{sign_of};
ghost use Rattle.command_words.specs.Reading as spec;

use crate::given::{Given, Place, nothing, place_of, put};
use crate::word::{Word, word_of};

/// What was given so far, and the place of the option whose value is the next word.
#[derive(Clone, Copy)]
pub(crate) struct Reading<'a> {
    pub given: Given<'a>,
    pub next: Option<Place>,
}

/// What these words give, where they are in form.
pub(crate) fn read<'a>(words: &'a [String]) -> Option<Given<'a>>
    ensures { option_map spec.values_of result ≡ spec.read (map string_bytes words.now) }
{
    let mut reading = Reading {
        given: nothing(),
        next: None,
    };
    for word in words {
        match after(reading, word) {
            None => return None,
            Some(next) => reading = next,
        }
    }
    ends(reading)
}

// Each option has its value.
fn ends<'a>(reading: Reading<'a>) -> Option<Given<'a>>
    ensures { option_map spec.values_of result ≡ spec.ends (Some (spec.state_of reading.entry)) }
{
    match reading.next {
        Some(_place) => None,
        None => Some(reading.given),
    }
}

// One word more.
fn after<'a>(reading: Reading<'a>, word: &'a str) -> Option<Reading<'a>>
    ensures { option_map spec.state_of result ≡ spec.after (spec.state_of reading.entry) word.now }
{
    match reading.next {
        None => begun(reading.given, word_of(word)),
        Some(place) => ended(reading.given, place, word_of(word)),
    }
}

// A word of the command itself.
fn begun<'a>(given: Given<'a>, word: Word<'a>) -> Option<Reading<'a>>
    ensures { option_map spec.state_of result ≡ spec.begun (spec.values_of given.entry) (sign_of word.entry) }
{
    match word {
        Word::Plain(value) => filled(put(given, Place::File, value)),
        Word::Named(option) => named(given, place_of(option)),
        Word::Valued(option, value) => given_value(given, place_of(option), value),
        Word::Misplaced => None,
    }
}

// A word that is the value of the option before it.
fn ended<'a>(given: Given<'a>, place: Place, word: Word<'a>) -> Option<Reading<'a>>
    ensures { option_map spec.state_of result ≡ spec.ended (spec.values_of given.entry) place (sign_of word.entry) }
{
    match word {
        Word::Plain(value) => filled(put(given, place, value)),
        Word::Named(_) | Word::Valued(_, _) | Word::Misplaced => None,
    }
}

fn filled<'a>(given: Option<Given<'a>>) -> Option<Reading<'a>>
    ensures { option_map spec.state_of result ≡ spec.filled (option_map spec.values_of given.entry) }
{
    match given {
        None => None,
        Some(given) => Some(Reading { given, next: None }),
    }
}

fn named<'a>(given: Given<'a>, place: Option<Place>) -> Option<Reading<'a>>
    ensures { option_map spec.state_of result ≡ spec.named (spec.values_of given.entry) place }
{
    match place {
        None => None,
        Some(place) => Some(Reading {
            given,
            next: Some(place),
        }),
    }
}

fn given_value<'a>(given: Given<'a>, place: Option<Place>, value: &'a str) -> Option<Reading<'a>>
    ensures { option_map spec.state_of result ≡ spec.given_value (spec.values_of given.entry) place value.now }
{
    match place {
        None => None,
        Some(place) => filled(put(given, place, value)),
    }
}
