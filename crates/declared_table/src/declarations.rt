//! The expressions that a table has.
ghost use Rattle.std.specs.Prelude.{◌≡◌, ◌∷◌, [], option_map, option_and_then, slice_get, MatchOption};
ghost use Rattle.emitted_expressions.specs.Files.{symbol_name, type_of, typed};
ghost use Rattle.emitted_expressions.specs.Emitted.{output_named};
ghost use Rattle.ordered_emissions.specs.Holes.{fill, holes, nearest};
ghost use Rattle.emitted_expressions.specs.Built.{Is, IsText};
ghost use Rattle.emitted_expressions.specs.Sight.{frames_of};
ghost use Rattle.declared_types.specs.Types.{typed_of};
ghost use Rattle.declared_table.specs.Seen.{sight, file_in, files_in, file_outside, whole_in};
ghost use Rattle.declared_table.specs.Seen.{full_name_in, condition_in};
ghost use Rattle.declared_table.specs.Entries.{IsEntry};

use crate::entry::Entry;
use crate::lookup::{filled_in, id_in};
use crate::table::Table;
use arm_expr::Expr;
use arm_value::{OutOfMemory, Text};
use bicep_resolved::Target;
use declared_types::Typed;
use emitted_expressions::{Declarations, Turn, no_value};
use resolved_program::ResolvedFile;
use std::alloc::Global;

impl<'a> Table<'a> {
    /// The name of a symbol.
    pub fn name_of(&self, number: usize) -> Option<&Text>
        ensures { option_map (λ t. t.now) result ≡ symbol_name (file_in self.now) number }
    {
        match self.file.entries.get(number) {
            Some(entry) => Some(&entry.name),
            None => None,
        }
    }

    /// The whole type of a symbol and its version, where there is such a symbol.
    pub(crate) fn typed_at(&self, number: usize) -> Option<&Typed>
        ensures { MatchOption result (type_of (file_in self.now) number ≡ typed [] [])
            (λ t. typed_of t.now ≡ type_of (file_in self.now) number) }
    {
        match self.types.get(number) {
            Some(own) => Some(own),
            None => None,
        }
    }

    /// The whole type of a symbol.
    ///
    /// # Errors
    ///
    /// `OutOfMemory`.
    pub fn kind_of(&self, alloc: Global, number: usize) -> Result<Text, OutOfMemory>
        ensures { IsText (type_of (file_in self.now) number).kind result }
    {
        match self.typed_at(number) {
            Some(own) => own.kind.copy(alloc),
            None => Text::of(alloc, ""),
        }
    }

    /// The version of a symbol.
    ///
    /// # Errors
    ///
    /// `OutOfMemory`.
    pub fn version_of(&self, alloc: Global, number: usize) -> Result<Text, OutOfMemory>
        ensures { IsText (type_of (file_in self.now) number).version result }
    {
        match self.typed_at(number) {
            Some(own) => own.version.copy(alloc),
            None => Text::of(alloc, ""),
        }
    }

    // The id of a symbol that has this entry.
    fn id_of(
        &self,
        alloc: Global,
        number: usize,
        entry: &Entry,
        turns: &[Turn],
    ) -> Result<Expr, OutOfMemory>
        requires { IsEntry (file_in self.now) (whole_in self.now) number entry.now }
        ensures { Is (fill (nearest (frames_of turns.now)) ((whole_in self.now).scope.id number (holes ∷ []))) result }
    {
        if entry.is_resource {
            let kind = self.kind_of(alloc, number)?;
            id_in(alloc, &kind, entry.parts.as_slice(), turns)
        } else {
            no_value(alloc)
        }
    }

    /// The whole name of a resource or a module, with the loop around its declaration, where there is one.
    ///
    /// # Errors
    ///
    /// `OutOfMemory`, also where it is beyond the limits of expressions.
    pub fn full_name(
        &self,
        alloc: Global,
        number: usize,
        turns: &[Turn],
    ) -> Result<Expr, OutOfMemory>
        ensures { Is (full_name_in self.now number (frames_of turns.now)) result }
    {
        match self.entry(number) {
            Some(entry) => filled_in(alloc, &entry.full_name, turns),
            None => no_value(alloc),
        }
    }

    /// The condition of a resource or a module, with the loop around its declaration, where there is one.
    ///
    /// # Errors
    ///
    /// `OutOfMemory`, also where it is beyond the limits of expressions.
    pub fn condition(
        &self,
        alloc: Global,
        number: usize,
        turns: &[Turn],
    ) -> Result<Expr, OutOfMemory>
        ensures { Is (condition_in self.now number (frames_of turns.now)) result }
    {
        match self.entry(number) {
            Some(entry) => filled_in(alloc, &entry.condition, turns),
            None => no_value(alloc),
        }
    }

    /// The name of an output of a module.
    pub fn output_of(&self, target: Target, number: usize) -> Option<&Text>
        ensures { option_map (λ t. t.now) result
            ≡ output_named (file_in self.now) (files_in self.now) (sight self.now).scope target number }
    {
        match target {
            Target::Resource(_) | Target::ResourceLoop(_) => None,
            Target::Module(_, file) | Target::ModuleLoop(_, file) => {
                output_in(self.files.get(file), number)
            }
        }
    }
}

// The name of an output of a file.
fn output_in<'a>(file: Option<&'a ResolvedFile>, number: usize) -> Option<&'a Text>
    ensures { option_map (λ t. t.now) result
        ≡ option_and_then (λ f. slice_get f.outputs number) (option_map (λ r. file_outside r.now) file.entry) }
{
    match file {
        Some(file) => file.outputs.get(number),
        None => None,
    }
}

impl<'a> Declarations for Table<'a> {
    ghost use Rattle.declared_table.specs.Seen.{sight};

    ghost sight = { sight };

    fn symbol<'b>(&'b self, number: usize) -> Option<&'b Text> {
        self.name_of(number)
    }

    fn variable(&self, alloc: Global, number: usize) -> Result<Expr, OutOfMemory> {
        match self.entry(number) {
            Some(entry) => entry.variable.copied(alloc),
            None => no_value(alloc),
        }
    }

    fn items(&self, alloc: Global, number: usize) -> Result<Expr, OutOfMemory> {
        match self.entry(number) {
            Some(entry) => entry.items.copied(alloc),
            None => no_value(alloc),
        }
    }

    fn name(&self, alloc: Global, number: usize, turns: &[Turn]) -> Result<Expr, OutOfMemory> {
        match self.entry(number) {
            Some(entry) => filled_in(alloc, &entry.name, turns),
            None => no_value(alloc),
        }
    }

    fn id(&self, alloc: Global, number: usize, turns: &[Turn]) -> Result<Expr, OutOfMemory> {
        match self.entry(number) {
            Some(entry) => self.id_of(alloc, number, entry, turns),
            None => no_value(alloc),
        }
    }

    fn kind(&self, alloc: Global, number: usize) -> Result<Text, OutOfMemory> {
        self.kind_of(alloc, number)
    }

    fn version(&self, alloc: Global, number: usize) -> Result<Text, OutOfMemory> {
        self.version_of(alloc, number)
    }

    fn output<'b>(&'b self, target: Target, number: usize) -> Option<&'b Text> {
        self.output_of(target, number)
    }
}
