// Where the line of a cell is.
ghost use Rattle.std.specs.Prelude.{◌≡◌, ◌∷◌, ◌<◌, ℕ, IfOk, MatchOption, length};
ghost use Rattle.arm_value.specs.Look.{fold};
ghost use Rattle.plan_filling.specs.Cells.{step, parameter, variable, offered, output, count, included, name, deployments};
ghost use Rattle.plan_filling.specs.Children.{Has, parameter_names, variable_names, output_names};
ghost use Rattle.plan_table.specs.Lines.{IsNumber};
ghost use Rattle.plan_table.specs.Whole.{IsLaid};
ghost use Rattle.plan_table.specs.Found.{scope_at, HasCell, IsLineOf, state_at, Counts, IsTrueLine};

use crate::keys::{deployments_key, instance_key, named_key, numbered_key};
use crate::table::Table;
use arm_value::{OutOfMemory, Text};
use std::alloc::Global;

impl<'a> Table<'a> {
    /// The line of a parameter of a scope, by its name in letters of any case; none where the scope has no such
    /// parameter.
    pub fn parameter_line(
        &self,
        alloc: Global,
        frame: usize,
        wanted: &Text,
    ) -> Result<Option<usize>, OutOfMemory>
        requires laid { IsLaid self.now }
        requires there { frame < length self.now.frames.items }
        ensures found { IfOk result (λ o. MatchOption o (Unit {0})
            (IsLineOf self.now frame (parameter (scope_at self.now frame).position (fold wanted.now)))) }
        ensures missing { IfOk result (λ o. MatchOption o
            (HasCell (scope_at self.now frame) (parameter (scope_at self.now frame).position (fold wanted.now)) → ⊥)
            (λ _. Unit {0})) }
    {
        let key = named_key(alloc, frame, 0, wanted)?;
        Ok(self.find(&key))
    }

    /// The line of a variable of a scope, by its name in letters of any case; none where the scope has no such
    /// variable.
    pub fn variable_line(
        &self,
        alloc: Global,
        frame: usize,
        wanted: &Text,
    ) -> Result<Option<usize>, OutOfMemory>
        requires laid { IsLaid self.now }
        requires there { frame < length self.now.frames.items }
        ensures found { IfOk result (λ o. MatchOption o (Unit {0})
            (IsLineOf self.now frame (variable (scope_at self.now frame).position (fold wanted.now)))) }
        ensures missing { IfOk result (λ o. MatchOption o
            (HasCell (scope_at self.now frame) (variable (scope_at self.now frame).position (fold wanted.now)) → ⊥)
            (λ _. Unit {0})) }
    {
        let key = named_key(alloc, frame, 1, wanted)?;
        Ok(self.find(&key))
    }

    /// The line of the condition of an output, by its name in letters of any case; none where the scope has no such
    /// output.
    pub fn offered_line(
        &self,
        alloc: Global,
        frame: usize,
        wanted: &Text,
    ) -> Result<Option<usize>, OutOfMemory>
        requires laid { IsLaid self.now }
        requires there { frame < length self.now.frames.items }
        ensures found { IfOk result (λ o. MatchOption o (Unit {0})
            (IsLineOf self.now frame (offered (scope_at self.now frame).position (fold wanted.now)))) }
        ensures missing { IfOk result (λ o. MatchOption o
            (HasCell (scope_at self.now frame) (offered (scope_at self.now frame).position (fold wanted.now)) → ⊥)
            (λ _. Unit {0})) }
    {
        let key = named_key(alloc, frame, 2, wanted)?;
        Ok(self.find(&key))
    }

    /// The line of an output, by its name in letters of any case, where the line of its condition is true.
    pub fn output_line(
        &self,
        alloc: Global,
        frame: usize,
        wanted: &Text,
    ) -> Result<Option<usize>, OutOfMemory>
        requires laid { IsLaid self.now }
        requires there { frame < length self.now.frames.items }
        ensures found { IfOk result (λ o. MatchOption o (Unit {0})
            (IsLineOf self.now frame (output (scope_at self.now frame).position (fold wanted.now)))) }
        ensures missing { IfOk result (λ o. MatchOption o ((j : ℕ)
            → IsLineOf self.now frame (offered (scope_at self.now frame).position (fold wanted.now)) j
            → IsTrueLine (state_at self.now j) → ⊥) (λ _. Unit {0})) }
    {
        let key = named_key(alloc, frame, 3, wanted)?;
        Ok(self.find(&key))
    }

    /// The line of the count of a resource; none where the scope has no such resource, or it is existing.
    pub fn count_line(
        &self,
        alloc: Global,
        frame: usize,
        resource: usize,
    ) -> Result<Option<usize>, OutOfMemory>
        requires laid { IsLaid self.now }
        requires there { frame < length self.now.frames.items }
        ensures found { IfOk result (λ o. MatchOption o (Unit {0})
            (IsLineOf self.now frame (count (scope_at self.now frame).position resource))) }
        ensures missing { IfOk result (λ o. MatchOption o (IsNumber (scope_at self.now frame) resource → ⊥)
            (λ _. Unit {0})) }
    {
        let key = numbered_key(alloc, frame, 4, resource)?;
        Ok(self.find(&key))
    }

    /// The line of the condition of an instance, where the line of the count has it.
    pub fn included_line(
        &self,
        alloc: Global,
        frame: usize,
        resource: usize,
        copy: usize,
    ) -> Result<Option<usize>, OutOfMemory>
        requires laid { IsLaid self.now }
        requires there { frame < length self.now.frames.items }
        ensures found { IfOk result (λ o. MatchOption o (Unit {0})
            (IsLineOf self.now frame (included (scope_at self.now frame).position (step resource copy)))) }
        ensures missing { IfOk result (λ o. MatchOption o ((j : ℕ)
            → IsLineOf self.now frame (count (scope_at self.now frame).position resource) j
            → Counts copy (state_at self.now j) → ⊥) (λ _. Unit {0})) }
    {
        let key = instance_key(alloc, frame, 5, resource, copy)?;
        Ok(self.find(&key))
    }

    /// The line of the name of an instance, where the line of the count has it.
    pub fn name_line(
        &self,
        alloc: Global,
        frame: usize,
        resource: usize,
        copy: usize,
    ) -> Result<Option<usize>, OutOfMemory>
        requires laid { IsLaid self.now }
        requires there { frame < length self.now.frames.items }
        ensures found { IfOk result (λ o. MatchOption o (Unit {0})
            (IsLineOf self.now frame (name (scope_at self.now frame).position (step resource copy)))) }
        ensures missing { IfOk result (λ o. MatchOption o ((j : ℕ)
            → IsLineOf self.now frame (count (scope_at self.now frame).position resource) j
            → Counts copy (state_at self.now j) → ⊥) (λ _. Unit {0})) }
    {
        let key = instance_key(alloc, frame, 6, resource, copy)?;
        Ok(self.find(&key))
    }

    /// The line of the nested deployments of a scope.
    pub fn deployments_line(
        &self,
        alloc: Global,
        frame: usize,
    ) -> Result<Option<usize>, OutOfMemory>
        requires laid { IsLaid self.now }
        requires there { frame < length self.now.frames.items }
        ensures found { IfOk result (λ o. MatchOption o ⊥
            (IsLineOf self.now frame (deployments (scope_at self.now frame).position))) }
    {
        let key = deployments_key(alloc, frame)?;
        Ok(self.find(&key))
    }
}
