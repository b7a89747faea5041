//! The extents that a table has.
ghost use Rattle.std.specs.Prelude.{◌∷◌, [], List, option_to_list};
ghost use Rattle.arm_expr.specs.Tree.{text as text_tree};
ghost use Rattle.emitted_expressions.specs.Files.{type_of};
ghost use Rattle.emitted_expressions.specs.Emitted.{Frame};
ghost use Rattle.ordered_emissions.specs.Holes.{fill, holes};
ghost use Rattle.emitted_sizes.specs.Extent.{IsOf};
ghost use Rattle.measured_expressions.specs.Spans.{IsSpan, AreSpans};
ghost use Rattle.declared_table.specs.Seen.{file_in, whole_in, full_name_in, condition_in};
ghost use Rattle.declared_table.specs.Entries.{IsEntry};

use crate::entry::Entry;
use crate::lookup::run_of;
use crate::table::Table;
use arm_value::Text;
use bicep_resolved::Target;
use emitted_sizes::Extent;
use emitted_sizes::literals::{no_value, text, word};
use kept_parts::id_extent;
use measured_expressions::{Sizes, Span};

impl<'a> Table<'a> {
    // The extent of the text of the whole type of a symbol.
    fn kind_extent(&self, number: usize) -> Extent
        ensures { IsOf (text_tree (type_of (file_in self.now) number).kind) result }
    {
        match self.typed_at(number) {
            Some(own) => text(&own.kind),
            None => word(""),
        }
    }

    // The extent of the text of the version of a symbol.
    fn version_extent(&self, number: usize) -> Extent
        ensures { IsOf (text_tree (type_of (file_in self.now) number).version) result }
    {
        match self.typed_at(number) {
            Some(own) => text(&own.version),
            None => word(""),
        }
    }

    /// The extent of the whole name of a resource or a module, with the loop around its declaration, where there is
    /// one.
    pub fn full_name_extent(&self, number: usize, span: Option<Span>) -> Extent
        ensures { (fs : List Frame) → AreSpans fs (option_to_list span)
            → IsOf (full_name_in self.now number fs) result }
    {
        match self.entry(number) {
            Some(entry) => entry.full_name.holed.filled(run_of(span)),
            None => no_value(),
        }
    }

    /// The extent of the condition of a resource or a module, with the loop around its declaration, where there is one.
    pub fn condition_extent(&self, number: usize, span: Option<Span>) -> Extent
        ensures { (fs : List Frame) → AreSpans fs (option_to_list span)
            → IsOf (condition_in self.now number fs) result }
    {
        match self.entry(number) {
            Some(entry) => entry.condition.holed.filled(run_of(span)),
            None => no_value(),
        }
    }

    // The extent of the id of a symbol that has this entry, with this run in its holes.
    fn extent_of_id(&self, number: usize, entry: &Entry, run: Span) -> Extent
        requires { IsEntry (file_in self.now) (whole_in self.now) number entry.now }
        ensures { (f : Frame) → IsSpan f run
            → IsOf (fill f ((whole_in self.now).scope.id number (holes ∷ []))) result }
    {
        if entry.is_resource {
            id_extent(self.kind_extent(number), entry.parts.as_slice(), run)
        } else {
            no_value()
        }
    }
}

impl<'a> Sizes for Table<'a> {
    ghost use Rattle.declared_table.specs.Seen.{sight};

    ghost sight = { sight };

    fn symbol<'b>(&'b self, number: usize) -> Option<&'b Text> {
        self.name_of(number)
    }

    fn variable(&self, number: usize) -> Extent {
        match self.entry(number) {
            Some(entry) => entry.variable.extent,
            None => no_value(),
        }
    }

    fn items(&self, number: usize) -> Extent {
        match self.entry(number) {
            Some(entry) => entry.items.extent,
            None => no_value(),
        }
    }

    fn name(&self, number: usize, span: Option<Span>) -> Extent {
        match self.entry(number) {
            Some(entry) => entry.name.holed.filled(run_of(span)),
            None => no_value(),
        }
    }

    fn id(&self, number: usize, span: Option<Span>) -> Extent {
        match self.entry(number) {
            Some(entry) => self.extent_of_id(number, entry, run_of(span)),
            None => no_value(),
        }
    }

    fn kind(&self, number: usize) -> Extent {
        self.kind_extent(number)
    }

    fn version(&self, number: usize) -> Extent {
        self.version_extent(number)
    }

    fn output<'b>(&'b self, target: Target, number: usize) -> Option<&'b Text> {
        self.output_of(target, number)
    }
}
