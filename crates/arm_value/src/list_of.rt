// Lists whose elements contracts see by their own models.
ghost use Rattle.std.specs.Prelude.{◌≡◌, ◌∷◌, ◌++◌, [], length, slice_get, option_copied, if◌then◌else◌, is_ok, ◌<◌};
ghost use Rattle.std.specs.Prelude.{◌^◌};

use crate::memory::OutOfMemory;
use std::alloc::Global;
use std::marker::Model;

/// A list, which contracts see as the list of its elements.
///
/// It is made from a vector and gives it back without taking memory.
#[derive(Debug, Drop)]
pub struct ListOf<T> {
    elements: Vec<T>,
}

impl<T> Model for ListOf<T> {
    ghost use Rattle.std.specs.Prelude.{List};

    ghost Value = { List T };

    ghost view = { λ l. l.elements.items };
}

impl<T> ListOf<T> {
    /// The list without an element. It takes no memory.
    pub fn new(alloc: Global) -> ListOf<T>
        ensures { result ≡ [] }
    {
        ListOf {
            elements: Vec::new(alloc),
        }
    }

    /// The list of a vector's elements. It takes no memory.
    pub fn from_vec(elements: Vec<T>) -> ListOf<T>
        ensures { result ≡ elements.items }
    {
        ListOf { elements }
    }

    /// The elements as a vector. It takes no memory.
    pub fn into_vec(self) -> Vec<T>
        ensures { result.items ≡ self }
    {
        self.elements
    }

    /// The elements, to go over.
    pub fn as_slice(&self) -> &[T]
        ensures { result.now ≡ self.now }
    {
        self.elements.as_slice()
    }

    /// The number of elements.
    pub fn len(&self) -> usize
        ensures { result ≡ length self.now }
    {
        self.elements.len()
    }

    /// The element at a place, counted from 0; none from the length on.
    pub fn at(&self, place: usize) -> Option<&T>
        ensures { option_copied result ≡ slice_get self.now place }
    {
        self.elements.as_slice().get(place)
    }

    /// Adds an element last. After `OutOfMemory` the list is unchanged.
    pub fn push(&mut self, element: T) -> Result<(), OutOfMemory>
    where
        T: Drop,
        ensures { self.new ≡ (if is_ok result then self.old ++ element ∷ [] else self.old) }
    {
        self.elements.push(element)?;
        Ok(())
    }
}
