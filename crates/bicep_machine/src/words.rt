// Words of a file.

ghost use Rattle.std.specs.Prelude.{◌≡◌};
ghost use Rattle.bicep_tree.specs.Precedence.{level};
ghost use Rattle.bicep_machine.specs.Closing.{is_for};
ghost use Rattle.bicep_machine.specs.Machine.{is_in, is_if, is_sys, is_resource, is_existing, namespace_of, type_of};
ghost use Rattle.bicep_machine.specs.Machine.{word_of};

use crate::word::Word;
use arm_value::Text;
use bicep_tree::{Namespace, Operator, TypeName, is_word};

/// Whether the word is `for`.
#[tactic(auto, unfolding(crate::specs::Closing::is_for))]
pub fn is_for(word: Text) -> bool
    ensures { result ≡ is_for word }
{
    is_word(word.as_str(), "for")
}

/// Whether the word is `in`.
#[tactic(auto, unfolding(crate::specs::Machine::is_in))]
pub fn is_in(word: Text) -> bool
    ensures { result ≡ is_in word }
{
    is_word(word.as_str(), "in")
}

/// Whether the word is `if`.
#[tactic(auto, unfolding(crate::specs::Machine::is_if))]
pub fn is_if(word: Text) -> bool
    ensures { result ≡ is_if word }
{
    is_word(word.as_str(), "if")
}

/// Whether the word is `sys`.
#[tactic(auto, unfolding(crate::specs::Machine::is_sys))]
pub fn is_sys(word: Text) -> bool
    ensures { result ≡ is_sys word }
{
    is_word(word.as_str(), "sys")
}

/// Whether the word is `resource`.
#[tactic(auto, unfolding(crate::specs::Machine::is_resource))]
pub fn is_resource(word: Text) -> bool
    ensures { result ≡ is_resource word }
{
    is_word(word.as_str(), "resource")
}

/// Whether the word is `existing`.
#[tactic(auto, unfolding(crate::specs::Machine::is_existing))]
pub fn is_existing(word: Text) -> bool
    ensures { result ≡ is_existing word }
{
    is_word(word.as_str(), "existing")
}

/// The name space that the word names.
#[tactic(auto, unfolding(crate::specs::Machine::namespace_of))]
pub fn namespace_of(word: &Text) -> Option<Namespace>
    ensures { result ≡ namespace_of word.now }
{
    if is_word(word.as_str(), "sys") {
        Some(Namespace::Sys)
    } else if is_word(word.as_str(), "az") {
        Some(Namespace::Az)
    } else {
        None
    }
}

/// The type that the word names.
#[tactic(auto, unfolding(crate::specs::Machine::type_of))]
pub fn type_of(word: Text) -> Option<TypeName>
    ensures { result ≡ type_of word }
{
    if is_word(word.as_str(), "string") {
        Some(TypeName::String)
    } else if is_word(word.as_str(), "int") {
        Some(TypeName::Int)
    } else if is_word(word.as_str(), "bool") {
        Some(TypeName::Bool)
    } else if is_word(word.as_str(), "object") {
        Some(TypeName::Object)
    } else if is_word(word.as_str(), "array") {
        Some(TypeName::Array)
    } else {
        None
    }
}

/// What the word begins in a file.
#[tactic(auto, unfolding(crate::specs::Machine::word_of))]
pub fn word_of(word: Text) -> Option<Word>
    ensures { result ≡ word_of word }
{
    if is_word(word.as_str(), "metadata") {
        Some(Word::Metadata)
    } else if is_word(word.as_str(), "targetScope") {
        Some(Word::TargetScope)
    } else if is_word(word.as_str(), "param") {
        Some(Word::Param)
    } else if is_word(word.as_str(), "var") {
        Some(Word::Var)
    } else if is_word(word.as_str(), "output") {
        Some(Word::Output)
    } else if is_word(word.as_str(), "resource") {
        Some(Word::Resource)
    } else if is_word(word.as_str(), "module") {
        Some(Word::Module)
    } else {
        None
    }
}

/// How tightly the operator binds.
pub fn level_of(operator: Operator) -> usize
    ensures { result ≡ level operator }
{
    match operator {
        Operator::Coalesce => 1,
        Operator::Or => 2,
        Operator::And => 3,
        Operator::Equals => 4,
        Operator::NotEquals => 4,
        Operator::EqualsInsensitive => 4,
        Operator::NotEqualsInsensitive => 4,
        Operator::Less => 5,
        Operator::LessOrEqual => 5,
        Operator::Greater => 5,
        Operator::GreaterOrEqual => 5,
        Operator::Add => 6,
        Operator::Subtract => 6,
        Operator::Multiply => 7,
        Operator::Divide => 7,
        Operator::Remainder => 7,
    }
}
