//! What declarations become, made of what others have become.
ghost use Rattle.std.specs.Prelude.{◌≡◌, ◌∷◌, [], ℕ, Ok, List, Option, option_map, option_and_then, IfOk};
ghost use Rattle.bicep_declared.specs.Declarations.{DeclaredTree};
ghost use Rattle.bicep_declared.specs.View.{declared_tree};
ghost use Rattle.bicep_meaning.specs.Declared.{body_of};
ghost use Rattle.bicep_meaning.specs.Files.{SourceFile, declaration, parent};
ghost use Rattle.declaration_laws.specs.Sound.{IsSound};
ghost use Rattle.emitted_declarations.specs.Declared as spec;
ghost use Rattle.emitted_declarations.specs.Declared.{Emission};
ghost use Rattle.emission_laws.specs.Holes.{holes};
ghost use Rattle.kept_expressions.specs.Kept.{IsKept, IsKeptHoles, AreKeptHoles};
ghost use Rattle.declared_table.specs.Seen.{file_in, files_in, emission_in};
ghost use Rattle.declared_entries.specs.Made.{IsMade, IsIdBy};
ghost use Rattle.declared_entries.specs.Parents.{parent_of as parent_tree};

use crate::heads::{condition, full_name};
use crate::names::own_name;
use crate::parents::{Up, parent_of};
use crate::parts::parts;
use crate::variables::{items, variable};
use arm_value::OutOfMemory;
use bicep_declared::Declared;
use declared_table::{Entry, Table};
use emitted_parts::lacks;
use kept_expressions::{Kept, KeptHoles};
use std::alloc::Global;

// Both, where both are there.
fn both<A: Drop, B: Drop>(
    one: Result<A, OutOfMemory>,
    other: Result<B, OutOfMemory>,
) -> Result<(A, B), OutOfMemory>
    ensures { IfOk result (λ p. (one ≡ Ok p.0) × (other ≡ Ok p.1)) }
{
    match one {
        Ok(one) => match other {
            Ok(other) => Ok((one, other)),
            Err(_) => lacks(one),
        },
        Err(_) => lacks(other),
    }
}

// The entry of a variable and the items of a loop, of a name and its parts, and of a whole name and a condition.
fn entry_with(
    used: Result<(Kept, Kept), OutOfMemory>,
    named: Result<(KeptHoles, Vec<KeptHoles>), OutOfMemory>,
    headed: Result<(KeptHoles, KeptHoles), OutOfMemory>,
    is_resource: bool,
) -> Result<Entry, OutOfMemory>
    ensures { (file : SourceFile) (files : List SourceFile) (b : Emission) (n : ℕ) (o : Option DeclaredTree)
        → IfOk used (λ p. IsKept (spec.variable_of file files b n o) p.0
        × IsKept (spec.over file files b (option_and_then (λ x. x.each) (option_and_then body_of o))) p.1)
        → IfOk named (λ p. IsKeptHoles (spec.name_by file files b n o (holes ∷ [])) p.0
        × AreKeptHoles (spec.parts_at file files b n o (holes ∷ [])) p.1.items)
        → IfOk headed (λ p. IsKeptHoles (spec.full_name_by file files b (parent file n)
        (spec.name_by file files b n o (holes ∷ [])) (holes ∷ [])) p.0
        × IsKeptHoles (spec.condition_of file files b n (option_and_then body_of o) (holes ∷ [])) p.1)
        → IsIdBy file files b n o is_resource → IfOk result (IsMade file files b n o) }
{
    match both(both(used, named), headed) {
        Ok((((variable, items), (name, parts)), (full_name, condition))) => Ok(Entry {
            variable,
            items,
            name,
            full_name,
            condition,
            parts,
            is_resource,
        }),
        Err(error) => Err(error),
    }
}

fn is_resource(declared: Option<&Declared>) -> bool
    ensures { (file : SourceFile) (files : List SourceFile) (b : Emission) (n : ℕ)
        → IsIdBy file files b n (option_map (λ d. declared_tree d.now) declared.entry) result }
{
    match declared {
        Some(Declared::Resource(_, _, _, _)) => true,
        Some(
            Declared::Parameter(_, _)
            | Declared::ParameterWith(_, _, _)
            | Declared::Variable(_, _)
            | Declared::Module(_, _),
        )
        | None => false,
    }
}

// The entry of a declaration of this name.
fn entry_named(
    alloc: Global,
    table: &Table,
    number: usize,
    declared: Option<&Declared>,
    own: KeptHoles,
) -> Result<Entry, OutOfMemory>
    requires sound { IsSound (file_in table.now) }
    requires declared { declaration (file_in table.now) number ≡ option_map (λ d. declared_tree d.now) declared }
    requires own { IsKeptHoles (spec.name_by (file_in table.now) (files_in table.now) (emission_in table.now)
        number (option_map (λ d. declared_tree d.now) declared) (holes ∷ [])) own }
    ensures { IfOk result (IsMade (file_in table.now) (files_in table.now) (emission_in table.now) number
        (option_map (λ d. declared_tree d.now) declared.entry)) }
{
    let up = up_of(table, number);
    let used = both(
        variable(alloc, table, number, declared),
        items(alloc, table, declared),
    );
    let headed = both(
        full_name(alloc, table, up, &own),
        condition(alloc, table, number, up, declared),
    );
    let parts = parts(alloc, table, number, up, declared, &own);
    entry_with(used, both(Ok(own), parts), headed, is_resource(declared))
}

// What a declaration is a child of.
fn up_of<'a>(table: &Table<'a>, number: usize) -> Up<'a>
    ensures { parent_tree result ≡ parent (file_in table.now) number }
{
    let file = table.file();
    parent_of(
        file.entries.as_slice(),
        file.declared.declarations.as_slice(),
        number,
    )
}

// The declaration of a number.
fn declared_at<'a>(table: &Table<'a>, number: usize) -> Option<&'a Declared>
    ensures { declaration (file_in table.now) number ≡ option_map (λ d. declared_tree d.now) result }
{
    table.file().declared.declarations.get(number)
}

/// What the declaration of a number becomes, made of what those in the table have become.
pub(crate) fn entry_of(alloc: Global, table: &Table, number: usize) -> Result<Entry, OutOfMemory>
    requires sound { IsSound (file_in table.now) }
    ensures { IfOk result (IsMade (file_in table.now) (files_in table.now) (emission_in table.now) number
        (declaration (file_in table.now) number)) }
{
    let declared = declared_at(table, number);
    match own_name(alloc, table, number, declared) {
        Ok(own) => entry_named(alloc, table, number, declared, own),
        Err(error) => Err(error),
    }
}
