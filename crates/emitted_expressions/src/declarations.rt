//! What the declarations of a file become, by the numbers of their symbols.
ghost use Rattle.std.specs.Prelude.{◌≡◌, option_map};
ghost use Rattle.bicep_meaning.specs.Files.{symbol_name, type_of};
ghost use Rattle.emitted_parts.specs.Emitted.{output_named};
ghost use Rattle.emitted_parts.specs.Built.{Is, IsText};
ghost use Rattle.emitted_expressions.specs.Sight.{Sight, frames_of};

use crate::turns::Turn;
use arm_expr::Expr;
use arm_value::{OutOfMemory, Text};
use bicep_resolved::Target;
use std::alloc::Global;

/// What the declarations of a file become where an expression uses them. A number is that of a symbol of the file.
pub trait Declarations {
    /// The file, and what its declarations become.
    ghost sight: { Self → Sight };

    /// The name of a symbol.
    fn symbol<'a>(&'a self, number: usize) -> Option<&'a Text>
        ensures { option_map (λ t. t.now) result ≡ symbol_name (sight self.now).file number };

    /// What a variable becomes.
    fn variable(&self, alloc: Global, number: usize) -> Result<Expr, OutOfMemory>
        ensures { Is ((sight self.now).scope.variable number) result };

    /// What a loop of resources or modules runs over.
    fn items(&self, alloc: Global, number: usize) -> Result<Expr, OutOfMemory>
        ensures { Is ((sight self.now).scope.items number) result };

    /// The name of a resource or a module, with the loop around its declaration, where there is one.
    fn name(&self, alloc: Global, number: usize, turns: &[Turn]) -> Result<Expr, OutOfMemory>
        ensures { Is ((sight self.now).scope.name number (frames_of turns.now)) result };

    /// The id of a resource, with the loop around its declaration, where there is one.
    fn id(&self, alloc: Global, number: usize, turns: &[Turn]) -> Result<Expr, OutOfMemory>
        ensures { Is ((sight self.now).scope.id number (frames_of turns.now)) result };

    /// The whole type of a resource.
    fn kind(&self, alloc: Global, number: usize) -> Result<Text, OutOfMemory>
        ensures { IsText (type_of (sight self.now).file number).kind result };

    /// The version of a resource.
    fn version(&self, alloc: Global, number: usize) -> Result<Text, OutOfMemory>
        ensures { IsText (type_of (sight self.now).file number).version result };

    /// The name of an output of a module.
    fn output<'a>(&'a self, target: Target, number: usize) -> Option<&'a Text>
        ensures { option_map (λ t. t.now) result
            ≡ output_named (sight self.now).file (sight self.now).files (sight self.now).scope target number };
}
