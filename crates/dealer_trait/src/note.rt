// What a book notes of a job and its answer.

ghost use Rattle.std.specs.Prelude.{◌≡◌};
ghost use Rattle.dealer_trait.specs.Kinds.{kind_of, second_of};

use arm_value::Bytes;
use provider_trait::Answer;

/// The kind of the note of a job that was stored.
pub const STORED: u8 = 6;

/// The kind of the note of a job that was refused.
pub const REFUSED: u8 = 7;

/// The kind of the note of a deletion that was done.
pub const GONE: u8 = 8;

/// What a book notes of a job and its answer: a record of the journal.
#[derive(Debug, Drop)]
pub struct Note {
    /// What was answered.
    pub kind: u8,
    /// The first part of the job's record.
    pub first: Bytes,
    /// The state's text, the code's bytes in UTF-8, or nothing.
    pub second: Bytes,
}

/// The kind of the note of this answer.
pub fn kind_of(answer: &Answer) -> u8
    ensures { result ≡ kind_of answer.now }
{
    match answer {
        Answer::Stored(_) => STORED,
        Answer::Refused(_) => REFUSED,
        Answer::Gone => GONE,
    }
}

/// The second part of the note of this answer: the compact JSON text of a state, the bytes of a
/// refusal's code in UTF-8, and nothing where a deletion was done.
pub fn second_of(answer: &Answer) -> &[u8]
    ensures { result.now ≡ second_of answer.now }
{
    match answer {
        Answer::Stored(state) => state.text().as_slice(),
        Answer::Refused(code) => code.as_str().as_bytes(),
        Answer::Gone => &[],
    }
}
