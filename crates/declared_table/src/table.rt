//! The table.
ghost use Rattle.std.specs.Prelude.{◌≡◌, ◌<◌, ◌++◌, ◌∷◌, [], length, slice_set, true, is_some, is_ok, if◌then◌else◌};
ghost use Rattle.std.specs.Prelude.{IfOk, OnOk, MatchOption};
ghost use Rattle.ordered_emissions.specs.Orders.{IsPaired};
ghost use Rattle.declared_table.specs.Seen.{mark_of, file_of, file_in, whole_in, is_known};
ghost use Rattle.declared_table.specs.Entries.{IsEntry};

use crate::entry::Entry;
use crate::mark::Mark;
use arm_value::OutOfMemory;
use declared_types::{Typed, types_of};
use resolved_program::ResolvedFile;
use std::alloc::{AllocError, Global};
use std::marker::Model;
use template_parts::Batches;

/// What the declarations of a file become, as far as the table is filled. Contracts see the file, the files of the
/// program, the marks of the symbols, and which symbols are in the table.
#[derive(Drop)]
pub struct Table<'a> {
    pub(crate) file: &'a ResolvedFile,
    pub(crate) files: &'a [ResolvedFile],
    pub(crate) marks: &'a [Mark],
    pub(crate) types: Vec<Typed>,
    places: Vec<Option<usize>>,
    entries: Vec<Entry>,
}

impl<'a> Model for Table<'a> {
    ghost use Rattle.std.specs.Prelude.{map, is_some};
    ghost use Rattle.std.specs.Coded.{codes};
    ghost use Rattle.bicep_resolved.specs.contracts.source.Reach as reach;
    ghost use Rattle.bicep_resolved.specs.contracts.source.Source as source;
    ghost use Rattle.bicep_resolved.specs.contracts.source.SourceValue as value;
    ghost use Rattle.bicep_resolved.specs.contracts.source.Piece as piece;
    ghost use Rattle.bicep_resolved.specs.contracts.source.Property as property;
    ghost use Rattle.bicep_resolved.specs.contracts.source.SourceLoop as each;
    ghost use Rattle.declared_table.specs.Seen.{Shape};

    ghost Value = { Shape };

    ghost coded = { Prim.hlevel (
      codes,
      reach.the_row.coded,
      source.the_row.coded,
      value.the_row.coded,
      piece.the_row.coded,
      property.the_row.coded,
      each.the_row.coded,
    ) };

    ghost use Rattle.declared_table.specs.Entries.{IsTable};

    ghost view = { λ t. ((t.file.now, t.files.now), (t.marks.now, map is_some t.places.items)) };

    ghost invariant = { λ t. IsTable t.file.now t.files.now t.marks.now t.types.items t.places.items
        t.entries.items };
}

impl<'a> Table<'a> {
    /// A table without entries. `marks` says what is known of each symbol, by its number.
    ///
    /// # Errors
    ///
    /// `OutOfMemory`.
    pub fn empty(
        alloc: Global,
        file: &'a ResolvedFile,
        files: &'a [ResolvedFile],
        marks: &'a [Mark],
    ) -> Result<Table<'a>, OutOfMemory>
        requires paired { IsPaired (file_of file.now marks.now) }
        ensures file { IfOk result (λ t. t.0 ≡ (file.now, files.now)) }
        ensures marks { IfOk result (λ t. t.1.0 ≡ marks.now) }
        ensures count { IfOk result (λ t. length t.1.1 ≡ length file.now.entries.items) }
    {
        let count = file.entries.len();
        let types = types_of(
            alloc,
            file.entries.as_slice(),
            file.declared.declarations.as_slice(),
        )?;
        let places = vec![in alloc; None; count]?;
        Ok(Table {
            file,
            files,
            marks,
            types,
            places,
            entries: Vec::new(alloc),
        })
    }

    /// The file.
    pub fn file(&self) -> &'a ResolvedFile
        ensures { result.now ≡ self.now.0.0 }
    {
        self.file
    }

    // The mark of a symbol.
    fn mark(&self, number: usize) -> Mark
        ensures { result ≡ mark_of self.now.1.0 number }
    {
        self.marks.get(number).copied().unwrap_or(Mark {
            has_entry: false,
            batches: Batches::Parallel,
        })
    }

    /// Whether a symbol is a variable that has an entry in the template.
    pub fn is_entry(&self, number: usize) -> bool
        ensures { result ≡ (file_in self.now).has_entry number }
    {
        self.mark(number).has_entry
    }

    /// When the instances of the loop of a symbol may begin.
    pub fn batches(&self, number: usize) -> Batches
        ensures { result ≡ (file_in self.now).batches number }
    {
        self.mark(number).batches
    }

    /// The entry of a symbol, where it is in the table.
    pub fn entry(&self, number: usize) -> Option<&Entry>
        ensures known { is_some result ≡ is_known self.now number }
        ensures entry { MatchOption result (Unit {0})
            (λ e. IsEntry (file_in self.now) (whole_in self.now) number e.now) }
    {
        match self.places.get(number).copied() {
            Some(Some(place)) => self.entries.get(place),
            _ => None,
        }
    }

    /// Adds the entry of a symbol.
    ///
    /// # Errors
    ///
    /// `OutOfMemory`.
    pub fn push(&mut self, number: usize, entry: Entry) -> Result<(), OutOfMemory>
        requires there { number < length self.old.1.1 }
        requires entry { IsEntry (file_in self.old) (whole_in self.old) number entry }
        ensures file { (self.new.0 ≡ self.old.0) × (self.new.1.0 ≡ self.old.1.0) }
        ensures known { OnOk result (self.new.1.1 ≡ slice_set self.old.1.1 number true) }
    {
        let place = self.entries.len();
        match pushed(&mut self.entries, entry) {
            Ok(()) => {
                self.places[number] = Some(place);
                Ok(())
            }
            Err(error) => Err(error),
        }
    }
}

// Adds an item at the end.
fn pushed<T: Drop>(list: &mut Vec<T>, item: T) -> Result<(), OutOfMemory>
    ensures items { list.new.items ≡ (if is_ok result then list.old.items ++ item ∷ [] else list.old.items) }
{
    match list.push(item) {
        Ok(()) => Ok(()),
        Err(_) => Err(AllocError),
    }
}
