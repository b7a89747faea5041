//! Types and versions.
ghost use Rattle.std.specs.Prelude.{◌≡◌, ◌++◌, ◌∷◌, Some, chars, map, string_bytes, slice_get, IfOk, OnOk};
ghost use Rattle.bicep_symbols.specs.Entries.{symbol_of};
ghost use Rattle.bicep_declared.specs.View.{declared_tree};
ghost use Rattle.bicep_meaning.specs.Files.{SourceFile, read_type, nested_type, type_text, type_within, around_kind};
ghost use Rattle.declared_types.specs.Types.{typed_of, HasSymbols, around_in, AreTypes};

use arm_value::{OutOfMemory, Text};
use bicep_declared::Declared;
use bicep_names::Kind;
use bicep_symbols::Entry;
use bicep_type_texts::divided;
use std::alloc::Global;

/// The whole type of a resource, and its version.
#[derive(Drop)]
pub struct Typed {
    /// The type.
    pub kind: Text,
    /// The version.
    pub version: Text,
}

// A type and a version.
fn type_with(alloc: Global, kind: &str, version: &str) -> Result<Typed, OutOfMemory>
    ensures kind { IfOk result (λ t. t.kind ≡ chars kind.now) }
    ensures version { IfOk result (λ t. t.version ≡ chars version.now) }
{
    let kind = Text::of(alloc, kind)?;
    let version = Text::of(alloc, version)?;
    Ok(Typed { kind, version })
}

// The type and the version in a type text, which has this version where it has none of its own.
fn read_type(alloc: Global, text: &str, version: &str) -> Result<Typed, OutOfMemory>
    ensures { IfOk result (λ t. typed_of t ≡ read_type (chars text.now) (chars version.now)) }
{
    match divided(text) {
        Some((kind, own)) => type_with(alloc, kind, own),
        None => type_with(alloc, text, version),
    }
}

// Adds a `/` and a segment.
fn push_segment(text: &mut String, segment: &str) -> Result<(), OutOfMemory>
    ensures { OnOk result (chars (string_bytes text.new)
        ≡ chars (string_bytes text.old) ++ 47 ∷ chars segment.now) }
{
    text.push('/')?;
    text.push_str(segment)?;
    Ok(())
}

// A text, `/` and a segment.
fn joined(alloc: Global, parent: &str, segment: &str) -> Result<Text, OutOfMemory>
    ensures { IfOk result (λ t. t ≡ chars parent.now ++ 47 ∷ chars segment.now) }
{
    let mut text = String::from_str(alloc, parent)?;
    push_segment(&mut text, segment)?;
    Ok(Text::from_string(text))
}

// The type of a resource of that type text, which is nested in one of this type.
fn nested_type(alloc: Global, up: &Typed, text: &str) -> Result<Typed, OutOfMemory>
    ensures { IfOk result (λ t. typed_of t ≡ nested_type (typed_of up.now) (chars text.now)) }
{
    let own = read_type(alloc, text, up.version.as_str())?;
    let kind = joined(alloc, up.kind.as_str(), own.kind.as_str())?;
    Ok(Typed {
        kind,
        version: own.version,
    })
}

// The type text of a resource; of no resource it is empty.
#[tactic(auto, using(crate::proofs::TypeLemmas::empty_text))]
fn own_text(declaration: &Declared) -> &str
    ensures { chars result.now ≡ type_text (Some (declared_tree declaration.now)) }
{
    match declaration {
        Declared::Resource(_, path, _, _) => path.text.as_str(),
        Declared::Parameter(_, _) => "",
        Declared::ParameterWith(_, _, _) => "",
        Declared::Variable(_, _) => "",
        Declared::Module(_, _) => "",
    }
}

// The type text of the resource of a number.
#[tactic(auto, using(crate::proofs::TypeLemmas::empty_text))]
fn text_at(declarations: &[Declared], number: usize) -> &str
    ensures { chars result.now ≡ type_text (slice_get (map declared_tree declarations.now) number) }
{
    match declarations.get(number) {
        Some(declaration) => own_text(declaration),
        None => "",
    }
}

fn around_kind(kind: Kind) -> Option<usize>
    ensures { result ≡ around_kind kind }
{
    match kind {
        Kind::Resource(inside) | Kind::ResourceLoop(inside) => inside,
        Kind::Parameter | Kind::Variable | Kind::Module(_) | Kind::ModuleLoop(_) => None,
    }
}

// The resource around the symbol of a number.
fn around(entries: &[Entry], number: usize) -> Option<usize>
    ensures { result ≡ around_in (slice_get (map symbol_of entries.now) number) }
{
    match entries.get(number) {
        Some(entry) => around_kind(entry.kind),
        None => None,
    }
}

// The type and the version of a resource that is nested in fewer than so many others.
#[tactic(auto, using(crate::proofs::TypeLemmas::empty_text), unfolding(bicep_meaning::specs::Files::type_within))]
fn type_within(
    alloc: Global,
    entries: &[Entry],
    declarations: &[Declared],
    depth: usize,
    number: usize,
) -> Result<Typed, OutOfMemory>
    ensures { (f : SourceFile) → HasSymbols f (map symbol_of entries.now) (map declared_tree declarations.now)
        → IfOk result (λ t. typed_of t ≡ type_within f depth number) }
{
    if depth == 0 {
        return type_with(alloc, "", "");
    }
    let text = text_at(declarations, number);
    match around(entries, number) {
        Some(up) => {
            let up = type_within(alloc, entries, declarations, depth - 1, up)?;
            nested_type(alloc, &up, text)
        }
        None => read_type(alloc, text, ""),
    }
}

/// The whole types of the resources of a file, and their versions, by the numbers of the symbols; of what is no
/// resource both are empty.
pub fn types_of(
    alloc: Global,
    entries: &[Entry],
    declarations: &[Declared],
) -> Result<Vec<Typed>, OutOfMemory>
    ensures { (f : SourceFile) → HasSymbols f (map symbol_of entries.now) (map declared_tree declarations.now)
        → IfOk result (λ ts. AreTypes f ts.items) }
{
    let count = entries.len();
    let mut all = Vec::new(alloc);
    for number in 0..count {
        all.push(type_within(alloc, entries, declarations, count, number)?)?;
    }
    Ok(all)
}
