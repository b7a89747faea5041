// JSON values, arrays and objects, and their parts.
ghost use Rattle.std.specs.Prelude.{◌≡◌, ◌≤◌, ℕ, List, [], ◌∷◌, ◌++◌, length, map, max, IfOk, OnOk, OnErr, slice_get};
ghost use Rattle.std.specs.Prelude.{option_map, encode_utf8_all, if◌then◌else◌, is_ok, chars, insert, ◌<◌};
ghost use Rattle.arm_value.specs.Json.{Json, Member, nesting, items_nesting, members_nesting, IsValue, AreItems};
ghost use Rattle.arm_value.specs.Json.{AreMembers, IsInOrder, RowIsOrderly, row, put, type_name};
ghost use Rattle.arm_value.specs.View.{json, member, held};
ghost use Rattle.arm_value.specs.Place.{replaced};

use crate::memory::OutOfMemory;
use crate::set::{depth_after, exchange, insert_at, place};
use crate::text::Text;
use std::alloc::Global;
use std::marker::Model;

/// A JSON value whose numbers are whole (RFC 8259 with 64-bit integers alone).
///
/// Contracts see it as a tree, `json` of it. It nests at most 120 deep: 0 for a scalar, and one
/// more than the deepest part for an array or an object.
#[cycle(value)]
#[derive(Drop)]
pub enum Value {
    /// `null`
    Null,
    /// `true` or `false`
    Bool(bool),
    /// a number
    Int(i64),
    /// a text
    Text(Text),
    /// an array
    Array(Items),
    /// an object
    Object(Fields),
}

/// The items of an array, which contracts see as the list of their trees.
#[cycle(value)]
#[derive(Drop)]
pub struct Items {
    items: Option<Vec<Value>>,
    depth: u32,
}

/// A member of an object: its name and its value.
#[cycle(value)]
#[derive(Drop)]
pub struct Field {
    /// Its name, compared exactly.
    pub name: Text,
    /// Its value.
    pub value: Value,
}

/// The members of an object, which contracts see as the list of their names and trees.
///
/// The names differ, and are in the order of their bytes in UTF-8.
#[cycle(value)]
#[derive(Drop)]
pub struct Fields {
    fields: Option<Vec<Field>>,
    depth: u32,
}

impl Model for Items {
    ghost use Rattle.std.specs.Prelude.{◌≡◌, List, map, suc};
    ghost use Rattle.arm_value.specs.Json.{Json, items_nesting, AreItems};

    ghost Value = { List Json };

    ghost use Rattle.arm_value.specs.JsonCode.{items_code};

    ghost coded = { items_code };

    ghost use Rattle.arm_value.specs.View.{json, held};

    ghost view = { λ a. map json (held a.items) };

    ghost invariant = { λ a. (a.depth ≡ items_nesting (map json (held a.items)))
        × AreItems (map json (held a.items)) };

    ghost size = { λ js. suc (items_nesting js) };

    ghost use Rattle.arm_value.specs.Falls.{held_items_fall};

    ghost size_decreases = { λ a h. held_items_fall a.items };
}

impl Model for Fields {
    ghost use Rattle.std.specs.Prelude.{◌≡◌, List, map, suc};
    ghost use Rattle.arm_value.specs.Json.{Member, members_nesting, AreMembers};

    ghost Value = { List Member };

    ghost use Rattle.arm_value.specs.JsonCode.{members_code};

    ghost coded = { members_code };

    ghost use Rattle.arm_value.specs.View.{member, held};

    ghost view = { λ a. map member (held a.fields) };

    ghost invariant = { λ a. (a.depth ≡ members_nesting (map member (held a.fields)))
        × AreMembers (map member (held a.fields)) };

    ghost size = { λ ms. suc (members_nesting ms) };

    ghost use Rattle.arm_value.specs.Falls.{held_members_fall};

    ghost size_decreases = { λ a h. held_members_fall a.fields };
}

// Puts the element last in a vector that may not be there yet.
fn add<T: Drop>(alloc: Global, list: &mut Option<Vec<T>>, x: T) -> Result<(), OutOfMemory>
    ensures { held list.new ≡ (if is_ok result then held list.old ++ x ∷ [] else held list.old) }
{
    match list {
        Some(items) => {
            items.push(x)?;
            Ok(())
        }
        None => {
            let mut items = Vec::new(alloc);
            items.push(x)?;
            *list = Some(items);
            Ok(())
        }
    }
}

/// The nesting of the deepest of these values; 0 where there is none.
pub fn deepest_item(values: &[Value]) -> u32
    ensures depth { result ≡ items_nesting (map json values.now) }
    ensures rules { RowIsOrderly (row (map json values.now)) }
{
    let mut depth = 0u32;
    for value in values {
        depth = depth.max(value.nesting());
    }
    depth
}

impl Items {
    /// No item. It takes no memory.
    pub fn new() -> Items
        ensures { result ≡ [] }
    {
        Items {
            items: None,
            depth: 0,
        }
    }

    /// The items of a vector, of which `deepest_item` returns the nesting. It takes no memory.
    pub fn from_vec(values: Vec<Value>) -> Items
        requires { items_nesting (map json values.items) ≤ 119 }
        ensures { result ≡ map json values.items }
    {
        let depth = deepest_item(values.as_slice());
        Items {
            items: Some(values),
            depth,
        }
    }

    /// The items as a vector. It takes no memory.
    pub fn into_vec(self, alloc: Global) -> Vec<Value>
        ensures { map json result.items ≡ self }
    {
        match self.items {
            Some(values) => values,
            None => Vec::new(alloc),
        }
    }

    /// The number of items.
    pub fn len(&self) -> usize
        ensures { result ≡ length self.now }
    {
        elements(&self.items).len()
    }

    /// The items, to go over.
    pub fn as_slice(&self) -> &[Value]
        ensures items { map json result.now ≡ self.now }
        ensures rules { AreItems self.now }
    {
        elements(&self.items)
    }

    /// The item at a place, counted from 0; none from the length on.
    pub fn at(&self, place: usize) -> Option<&Value>
        ensures { option_map (λ v. json v.now) result ≡ slice_get self.now place }
    {
        self.as_slice().get(place)
    }

    /// The nesting of the deepest item, at most 119; 0 where there is none.
    pub fn depth(&self) -> u32
        ensures value { result ≡ items_nesting self.now }
        ensures rules { AreItems self.now }
    {
        self.depth
    }

    /// Adds an item last. After `OutOfMemory` the items are unchanged.
    pub fn push(&mut self, alloc: Global, value: Value) -> Result<(), OutOfMemory>
        requires { nesting (json value) ≤ 119 }
        ensures { self.new ≡ (if is_ok result then self.old ++ json value ∷ [] else self.old) }
    {
        let depth = value.nesting();
        add(alloc, &mut self.items, value)?;
        self.depth = self.depth.max(depth);
        Ok(())
    }
}

impl Fields {
    /// No member. It takes no memory.
    pub fn new() -> Fields
        ensures { result ≡ [] }
    {
        Fields {
            fields: None,
            depth: 0,
        }
    }

    /// The members as a vector, in their order. It takes no memory.
    pub fn into_vec(self, alloc: Global) -> Vec<Field>
        ensures { map member result.items ≡ self }
    {
        match self.fields {
            Some(fields) => fields,
            None => Vec::new(alloc),
        }
    }

    /// The number of members.
    pub fn len(&self) -> usize
        ensures { result ≡ length self.now }
    {
        elements(&self.fields).len()
    }

    /// The members in their order, to go over.
    pub fn as_slice(&self) -> &[Field]
        ensures members { map member result.now ≡ self.now }
        ensures rules { AreMembers self.now }
    {
        elements(&self.fields)
    }

    /// The name and the value at a place, counted from 0; none from the length on.
    pub fn at(&self, place: usize) -> Option<(&str, &Value)>
        ensures { option_map (λ p. (chars p.0.now, json p.1.now)) result ≡ slice_get self.now place }
    {
        match self.as_slice().get(place) {
            Some(field) => Some((field.name.as_str(), &field.value)),
            None => None,
        }
    }

    /// The nesting of the deepest value, at most 119; 0 where there is none.
    pub fn depth(&self) -> u32
        ensures value { result ≡ members_nesting self.now }
        ensures rules { AreMembers self.now }
    {
        self.depth
    }

    /// Adds a member whose name comes after all that are there.
    /// After `OutOfMemory` the members are unchanged.
    pub fn push_last(&mut self, alloc: Global, name: Text, value: Value) -> Result<(), OutOfMemory>
        requires nests { nesting (json value) ≤ 119 }
        requires last { IsInOrder (self.old ++ (name, json value) ∷ []) }
        ensures { self.new ≡ (if is_ok result then self.old ++ (name, json value) ∷ [] else self.old) }
    {
        let depth = value.nesting();
        add(alloc, &mut self.fields, Field { name, value })?;
        self.depth = self.depth.max(depth);
        Ok(())
    }

    /// Puts the value at this exact name: in place of the value there, or as a new member in order.
    /// After `OutOfMemory` the members are unchanged.
    pub fn set(&mut self, alloc: Global, name: &str, value: Value) -> Result<(), OutOfMemory>
        requires { nesting (json value) ≤ 119 }
        ensures { self.new
            ≡ (if is_ok result then put (chars name.now) (json value) self.old else self.old) }
    {
        let place = place(self.as_slice(), name);
        match place {
            Ok(there) => {
                self.replace(there, value);
                Ok(())
            }
            Err(before) => self.insert(alloc, before, name, value),
        }
    }

    // Puts the value in place of that of the member there. The members are gone over for their
    // depth only where the value before was the deepest.
    fn replace(&mut self, place: usize, value: Value)
        requires within { place < length self.old }
        requires nests { nesting (json value) ≤ 119 }
        ensures { self.new ≡ replaced self.old place (json value) }
    {
        let depth = value.nesting();
        let before = exchange(&mut self.fields, place, value);
        self.depth = depth_after(elements(&self.fields), self.depth, before, depth);
    }

    // Puts a new member before the place.
    fn insert(
        &mut self,
        alloc: Global,
        place: usize,
        name: &str,
        value: Value,
    ) -> Result<(), OutOfMemory>
        requires within { place ≤ length self.old }
        requires nests { nesting (json value) ≤ 119 }
        requires ordered { IsInOrder (insert self.old place (chars name.now, json value)) }
        ensures { self.new ≡ (if is_ok result then insert self.old place (chars name.now, json value)
            else self.old) }
    {
        let depth = value.nesting();
        let name = Text::of(alloc, name)?;
        insert_at(alloc, &mut self.fields, place, Field { name, value })?;
        self.depth = self.depth.max(depth);
        Ok(())
    }
}

// The elements of a vector that may not be there yet.
fn elements<T>(list: &Option<Vec<T>>) -> &[T]
    ensures { result.now ≡ held list.now }
{
    match list {
        Some(elements) => elements.as_slice(),
        None => &[],
    }
}

impl Value {
    /// The nesting: 0 for a scalar, and one more than the deepest part for an array or an object.
    pub fn nesting(&self) -> u32
        ensures value { result ≡ nesting (json self.now) }
        ensures rules { IsValue (json self.now) }
    {
        match self {
            Value::Null => 0,
            Value::Bool(_) => 0,
            Value::Int(_) => 0,
            Value::Text(_) => 0,
            Value::Array(items) => items.depth() + 1,
            Value::Object(fields) => fields.depth() + 1,
        }
    }

    /// `null`, `bool`, `int`, `string`, `array` or `object`.
    pub fn type_name(&self) -> &'static str
        ensures { result.now ≡ type_name (json self.now) }
    {
        match self {
            Value::Null => "null",
            Value::Bool(_) => "bool",
            Value::Int(_) => "int",
            Value::Text(_) => "string",
            Value::Array(_) => "array",
            Value::Object(_) => "object",
        }
    }
}
