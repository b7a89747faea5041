//! The extents of what the declarations of a file become, by the numbers of their symbols.
ghost use Rattle.std.specs.Prelude.{◌≡◌, List, option_map, option_to_list};
ghost use Rattle.arm_expr.specs.Tree.{text};
ghost use Rattle.bicep_emission.specs.Files.{symbol_name, type_of};
ghost use Rattle.bicep_emission.specs.Emitted.{Frame, output_named};
ghost use Rattle.emitted_sizes.specs.Extent.{IsOf};
ghost use Rattle.emitted_expressions.specs.Sight.{Sight};
ghost use Rattle.measured_expressions.specs.Spans.{AreSpans};

use crate::spans::Span;
use arm_value::Text;
use bicep_resolved::Target;
use emitted_sizes::Extent;

/// The extents of what the declarations of a file become where an expression uses them. A number is that of a symbol of
/// the file.
pub trait Sizes {
    /// The file, and what its declarations become.
    ghost sight: { Self → Sight };

    /// The name of a symbol.
    fn symbol<'a>(&'a self, number: usize) -> Option<&'a Text>
        ensures { option_map (λ t. t.now) result ≡ symbol_name (sight self.now).file number };

    /// What a variable becomes.
    fn variable(&self, number: usize) -> Extent
        ensures { IsOf ((sight self.now).scope.variable number) result };

    /// What a loop of resources or modules runs over.
    fn items(&self, number: usize) -> Extent
        ensures { IsOf ((sight self.now).scope.items number) result };

    /// The name of a resource or a module, with the loop around its declaration, where there is one.
    fn name(&self, number: usize, span: Option<Span>) -> Extent
        ensures { (fs : List Frame) → AreSpans fs (option_to_list span)
            → IsOf ((sight self.now).scope.name number fs) result };

    /// The id of a resource, with the loop around its declaration, where there is one.
    fn id(&self, number: usize, span: Option<Span>) -> Extent
        ensures { (fs : List Frame) → AreSpans fs (option_to_list span)
            → IsOf ((sight self.now).scope.id number fs) result };

    /// The text of the whole type of a resource.
    fn kind(&self, number: usize) -> Extent
        ensures { IsOf (text (type_of (sight self.now).file number).kind) result };

    /// The text of the version of a resource.
    fn version(&self, number: usize) -> Extent
        ensures { IsOf (text (type_of (sight self.now).file number).version) result };

    /// The name of an output of a module.
    fn output<'a>(&'a self, target: Target, number: usize) -> Option<&'a Text>
        ensures { option_map (λ t. t.now) result
            ≡ output_named (sight self.now).file (sight self.now).files (sight self.now).scope target number };
}
