// From a source to its tokens.

ghost use Rattle.std.specs.Prelude.{◌≡◌, ◌≢◌, ℕ, ◌+◌, ◌-◌, ◌≤◌, ◌<◌, ◌^◌, List, [], ◌∷◌, ◌++◌, length, take, drop};
ghost use Rattle.std.specs.Prelude.{map, slice_index, Ok, Err, OnOk, IfOk, IfErr};
ghost use Rattle.bicep_lexer.specs.declared.fault.LexFault.{LexFault};
ghost use Rattle.bicep_lexer.specs.declared.fault.LexFault.TheVariants.{OutOfMemory};
ghost use Rattle.bicep_lexer.specs.declared.front.Line.TheVariants.{Within};
ghost use Rattle.bicep_lexer.specs.Grammar.{Spells, AreSlices, AreSigned};
ghost use Rattle.bicep_lexer.specs.Faults.{Refuses};
ghost use Rattle.bicep_lexer.specs.Reading.{Standing, standing};
ghost use Rattle.bicep_lexer.specs.Grammar.{turned, mark_length};
ghost use Rattle.bicep_lexer.specs.Reader.Steps.{ended, reading};
ghost use Rattle.bicep_lexer.specs.Reader.Fronts.{front_of};
ghost use Rattle.bicep_lexer.specs.Reader.Steps.{whole, then_rest, IsSpan, OnFront};

use crate::fault::LexFault;
use crate::front::{Front, Line, Open, Turn, front_of, outermost};
use crate::kind::TokenKind;
use crate::token::Token;
use std::alloc::Global;

/// A source that is being read: the offset of the rest, what is open there, and the tokens before it.
#[derive(Drop)]
struct Lexer<'a> {
    text: &'a str,
    at: usize,
    line: Line,
    opened: Vec<Open>,
    found: Vec<Token<'a>>,
}

/// The length of the byte order mark at the front in bytes, or 0.
#[tactic(auto, unfolding(crate::specs::Grammar::mark_length))]
fn mark_length(bytes: &[u8]) -> usize
    ensures value { result ≡ mark_length bytes.now }
    ensures bound { result ≤ length bytes.now }
{
    if bytes.starts_with(&[0xef, 0xbb, 0xbf]) {
        3
    } else {
        0
    }
}

fn slice_at(text: &str, at: usize, count: usize) -> &str
    requires { IsSpan count (drop at text.now) }
    ensures { result.now ≡ take count (drop at text.now) }
{
    &text[at..at + count]
}

impl<'a> Lexer<'a> {
    /// Takes the first `count` bytes of the rest as a token.
    fn push(&mut self, kind: TokenKind, count: usize) -> Result<(), LexFault>
        requires { IsSpan count (drop self.old.at self.old.text.now) }
        ensures found { OnOk result (map standing self.new.found.items
            ≡ map standing self.old.found.items
            ++ (kind, self.old.at, take count (drop self.old.at self.old.text.now)) ∷ []) }
        ensures at { OnOk result (self.new.at ≡ self.old.at + count) }
        ensures rest { OnOk result ((self.new.text.now ≡ self.old.text.now)
            × (self.new.opened.items ≡ self.old.opened.items) × (self.new.line ≡ self.old.line)) }
        ensures err { IfErr result (λ f. f ≡ OutOfMemory) }
    {
        let text = slice_at(self.text, self.at, count);
        let token = Token {
            kind,
            at: self.at,
            text,
        };
        self.found.push(token).map_err(|_| LexFault::OutOfMemory)?;
        self.at += count;
        Ok(())
    }

    /// Opens or closes what a token opens or closes.
    fn turn(&mut self, turn: Turn) -> Result<(), LexFault>
        ensures opened { OnOk result (self.new.opened.items ≡ turned turn self.old.opened.items) }
        ensures rest { OnOk result ((self.new.text.now ≡ self.old.text.now)
            × (self.new.at ≡ self.old.at) × (self.new.line ≡ self.old.line)
            × (map standing self.new.found.items ≡ map standing self.old.found.items)) }
        ensures err { IfErr result (λ f. f ≡ OutOfMemory) }
    {
        match turn {
            Turn::Stays => Ok(()),
            Turn::Opens(each) => {
                self.opened.push(each).map_err(|_| LexFault::OutOfMemory)?;
                Ok(())
            }
            Turn::Closes => {
                let _closed = self.opened.pop();
                Ok(())
            }
        }
    }

    /// Takes the first `count` bytes of the rest as a token that opens or closes something.
    fn word(&mut self, kind: TokenKind, count: usize, turn: Turn) -> Result<(), LexFault>
        requires { IsSpan count (drop self.old.at self.old.text.now) }
        ensures found { OnOk result (map standing self.new.found.items
            ≡ map standing self.old.found.items
            ++ (kind, self.old.at, take count (drop self.old.at self.old.text.now)) ∷ []) }
        ensures at { OnOk result (self.new.at ≡ self.old.at + count) }
        ensures text { OnOk result (self.new.text.now ≡ self.old.text.now) }
        ensures opened { OnOk result (self.new.opened.items ≡ turned turn self.old.opened.items) }
        ensures line { OnOk result (self.new.line ≡ Within) }
        ensures err { IfErr result (λ f. f ≡ OutOfMemory) }
    {
        self.push(kind, count)?;
        self.turn(turn)?;
        self.line = Line::Within;
        Ok(())
    }

    /// The front of the rest.
    fn front(&self) -> Result<Front, LexFault>
        requires { self.now.at ≤ length self.now.text.now }
        ensures value { result
            ≡ front_of self.now.at self.now.opened.items self.now.line (drop self.now.at self.now.text.now) }
        ensures span { OnFront result (drop self.now.at self.now.text.now) }
        ensures bound { length self.now.text.now < 2 ^ 64 }
    {
        let bytes = self.text.as_bytes();
        front_of(&bytes[self.at..], self.at, &self.opened, self.line)
    }

    /// Takes the front of the rest.
    fn step(&mut self) -> Result<(), LexFault>
        requires { self.old.at < length self.old.text.now }
        ensures reading { OnOk result (
            whole self.new.text.now self.new.at self.new.opened.items self.new.line (map standing self.new.found.items)
            ≡ whole self.old.text.now self.old.at self.old.opened.items self.old.line
            (map standing self.old.found.items)) }
        ensures fault { IfErr result (λ f. f ≢ OutOfMemory
            → whole self.old.text.now self.old.at self.old.opened.items self.old.line
            (map standing self.old.found.items) ≡ Err f) }
        ensures text { OnOk result (self.new.text.now ≡ self.old.text.now) }
        ensures rises { OnOk result (self.old.at < self.new.at) }
        ensures within { OnOk result (self.new.at ≤ length self.old.text.now) }
    {
        match self.front() {
            Err(fault) => Err(fault),
            Ok(Front::Skipped(count, line)) => {
                self.at += count;
                self.line = line;
                Ok(())
            }
            Ok(Front::Newline(count)) => {
                self.push(TokenKind::Newline, count)?;
                self.line = Line::Folded;
                Ok(())
            }
            Ok(Front::Word(kind, count, turn)) => {
                self.word(kind, count, turn)?;
                Ok(())
            }
        }
    }
}

fn read<'a>(alloc: Global, text: &'a str) -> Result<Vec<Token<'a>>, LexFault>
    ensures tokens { IfOk result (λ found. reading text.now ≡ Ok (map standing found.items)) }
    ensures fault { IfErr result (λ f. f ≢ OutOfMemory → reading text.now ≡ Err f) }
{
    let at = mark_length(text.as_bytes());
    let mut lexer = Lexer {
        text,
        at,
        line: Line::Front,
        opened: Vec::new(alloc),
        found: Vec::new(alloc),
    };
    while lexer.at < text.len() {
        match lexer.step() {
            Ok(()) => {}
            Err(fault) => return Err(fault),
        }
    }
    match outermost(&lexer.opened) {
        Some(quote) => Err(LexFault::OpenText(quote)),
        None => Ok(lexer.found),
    }
}

/// The tokens of a source, in its order.
///
/// Each token's text is the slice of the source at its place. Between two tokens are only blanks, comments,
/// lines of `#disable-next-line`, and line ends after a line end. Every other error than `OutOfMemory` is the
/// only fault of the source, with its offset in bytes: a character, a wrong escape, a number, an open comment
/// or the opening quote of an open text.
pub fn tokens<'a>(alloc: Global, text: &'a str) -> Result<Vec<Token<'a>>, LexFault>
    ensures spelled { IfOk result (λ found. Spells text.now (map standing found.items)) }
    ensures alone { IfOk result (λ found.
        (others : List Standing) → Spells text.now others → others ≡ map standing found.items) }
    ensures sliced { IfOk result (λ found. AreSlices text.now 0 (map standing found.items)) }
    ensures signed { IfOk result (λ found. AreSigned (map standing found.items)) }
    ensures faultless { IfOk result (λ _. (any : LexFault) → ¬ Refuses text.now any) }
    ensures refused { IfErr result (λ f. f ≢ OutOfMemory → Refuses text.now f) }
    ensures refused_alone { IfErr result (λ f. f ≢ OutOfMemory
        → (other : LexFault) → Refuses text.now other → other ≡ f) }
    ensures unspelled { IfErr result (λ f. f ≢ OutOfMemory → (any : List Standing) → ¬ Spells text.now any) }
{
    read(alloc, text)
}
