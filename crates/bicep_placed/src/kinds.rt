// The whole types of resources, and which type a child has.
ghost use Rattle.std.specs.Prelude.{◌≡◌, ◌++◌, ◌∷◌, [], map, chars, slice_get, string_bytes};
ghost use Rattle.std.specs.Prelude.{IfOk, OnOk};
ghost use Rattle.std.specs.Option.{option_copied};
ghost use Rattle.bicep_declared.specs.View.{declared_tree};
ghost use Rattle.bicep_placed.specs.Kinds as spec;

use arm_ids::segments;
use arm_value::{OutOfMemory, Text};
use bicep_declared::Declared;
use bicep_names::Kind;
use bicep_symbols::Entry;
use bicep_type_texts::divided;
use std::alloc::Global;

// The type in a type text.
fn kind_in(path: &Text) -> &str
    ensures { chars result.now ≡ spec.kind_in path.now }
{
    match divided(path.as_str()) {
        Some((kind, _)) => kind,
        None => path.as_str(),
    }
}

fn around(kind: Kind) -> Option<usize>
    ensures { result ≡ spec.around kind }
{
    match kind {
        Kind::Resource(inside) | Kind::ResourceLoop(inside) => inside,
        Kind::Parameter | Kind::Variable | Kind::Module(_) | Kind::ModuleLoop(_) => None,
    }
}

fn path_of(declaration: &Declared) -> Option<&Text>
    ensures { option_copied result ≡ spec.path_of (declared_tree declaration.now) }
{
    match declaration {
        Declared::Resource(_, path, _, _) => Some(&path.text),
        Declared::Parameter(_, _)
        | Declared::ParameterWith(_, _, _)
        | Declared::Variable(_, _)
        | Declared::Module(_, _) => None,
    }
}

/// The text at a place; none where there is none.
pub(crate) fn known(kinds: &[Text], number: usize) -> &str
    ensures { chars result.now ≡ spec.known (slice_get kinds.now number) }
{
    match kinds.get(number) {
        Some(kind) => kind.as_str(),
        None => "",
    }
}

// Adds a `/` and a segment.
fn push_segment(text: &mut String, segment: &str) -> Result<(), OutOfMemory>
    ensures { OnOk result (chars (string_bytes text.new)
        ≡ chars (string_bytes text.old) ++ 47 ∷ chars segment.now) }
{
    text.push('/')?;
    text.push_str(segment)?;
    Ok(())
}

// A text, `/` and a segment.
fn joined(alloc: Global, parent: &str, segment: &str) -> Result<Text, OutOfMemory>
    ensures { IfOk result (λ t. t ≡ chars parent.now ++ 47 ∷ chars segment.now) }
{
    let mut text = String::from_str(alloc, parent)?;
    push_segment(&mut text, segment)?;
    Ok(Text::from_string(text))
}

// The whole type of a resource.
fn whole_kind(
    alloc: Global,
    before: &[Text],
    around: Option<usize>,
    path: Option<&Text>,
) -> Result<Text, OutOfMemory>
    ensures { IfOk result (λ t. t ≡ spec.whole_kind before.now around (option_copied path.entry)) }
{
    match path {
        None => Text::of(alloc, ""),
        Some(path) => match around {
            None => Text::of(alloc, kind_in(path)),
            Some(number) => joined(alloc, known(before, number), kind_in(path)),
        },
    }
}

fn push_kind(
    alloc: Global,
    kinds: &mut Vec<Text>,
    kind: Kind,
    declaration: &Declared,
) -> Result<(), OutOfMemory>
    ensures { OnOk result (kinds.new.items ≡ kinds.old.items
        ++ spec.whole_kind kinds.old.items (spec.around kind) (spec.path_of (declared_tree declaration.now)) ∷ []) }
{
    let whole = whole_kind(alloc, kinds.as_slice(), around(kind), path_of(declaration))?;
    kinds.push(whole)?;
    Ok(())
}

/// The whole types of the resources of a file, by the numbers of their symbols.
pub(crate) fn whole_kinds(
    alloc: Global,
    entries: &[Entry],
    declarations: &[Declared],
) -> Result<Vec<Text>, OutOfMemory>
    ensures { IfOk result (λ v. v.items
        ≡ spec.whole_kinds (map (λ e. e.kind) entries.now) (map declared_tree declarations.now)) }
{
    let mut wholes = Vec::new(alloc);
    let mut rest = declarations;
    for entry in entries {
        match rest {
            [] => return Ok(wholes),
            [first, after @ ..] => {
                push_kind(alloc, &mut wholes, entry.kind, first)?;
                rest = after;
            }
        }
    }
    Ok(wholes)
}

// Whether the second list begins with the texts of the first.
fn begins(front: &[Text], whole: &[Text]) -> bool
    ensures { result ≡ spec.is_folded_front front.now whole.now }
{
    if front.len() > whole.len() {
        return false;
    }
    for i in 0..front.len() {
        if !front[i].is_same_ignore_case(&whole[i]) {
            return false;
        }
    }
    true
}

// Whether the second list is one longer, and begins with the texts of the first.
fn is_longer(parents: &[Text], kinds: &[Text]) -> bool
    ensures { result ≡ spec.is_longer parents.now kinds.now }
{
    kinds.len() == parents.len() + 1 && begins(parents, kinds)
}

/// Whether the second type is the first and one segment.
#[tactic(auto, unfolding(crate::specs::Kinds::is_child))]
pub(crate) fn is_child(alloc: Global, parent: &str, path: &Text) -> Result<bool, OutOfMemory>
    ensures { IfOk result (λ b. b ≡ spec.is_child (chars parent.now) (spec.kind_in path.now)) }
{
    let parents = segments(alloc, parent)?;
    let kinds = segments(alloc, kind_in(path))?;
    Ok(is_longer(parents.as_slice(), kinds.as_slice()))
}
