// The resources that a store holds.
ghost use Rattle.std.specs.Prelude.{◌≡◌, [], List, ℕ, length, if◌then◌else◌, is_ok, bytes_eq, Some, None, Err};
ghost use Rattle.std.specs.Prelude.{IfOk, IfErr, OnOk, option_map, slice_get, chars};
ghost use Rattle.arm_value.specs.Look.{fold};
ghost use Rattle.arm_ids.specs.Id.{folded_text, HasKey};
ghost use Rattle.arm_ids.specs.Held.{held_by, find, put, without, IsInOrder, HaveKeys, RefusesPut};
ghost use Rattle.arm_ids.specs.Entry.{as_held};

use crate::entry::Entry;
use crate::fault::{IdFault, PutFault};
use crate::key::Key;
use crate::row::{Row, find_row, push_copy, put_row, take_row};
use arm_value::{OutOfMemory, Text};
use std::alloc::Global;
use std::marker::Model;

/// The resources that a store holds, at most one of each key, in the order of their folded ids' bytes.
///
/// The id of each entry is the id of a key.
#[derive(Drop)]
pub struct Held {
    rows: Vec<Row>,
}

impl Model for Held {
    ghost use Rattle.std.specs.Prelude.{List, map};
    ghost use Rattle.arm_ids.specs.Held.{HeldResource, held_code};

    ghost Value = { List HeldResource };

    ghost coded = { held_code };

    ghost use Rattle.arm_ids.specs.Row.{row_held, AreRows};

    ghost view = { λ h. map row_held h.rows.items };

    ghost invariant = { λ h. AreRows h.rows.items };
}

impl Held {
    /// Nothing held. It takes no memory.
    pub fn new(alloc: Global) -> Held
        ensures { result ≡ [] }
    {
        Held {
            rows: Vec::new(alloc),
        }
    }

    /// How many resources are held.
    pub fn len(&self) -> usize
        ensures count { result ≡ length self.now }
        ensures in_order { IsInOrder self.now }
        ensures named { HaveKeys self.now }
    {
        self.rows.len()
    }

    /// The entry at a place, counted from 0 in the order of ids.
    pub fn at(&self, i: usize) -> Option<&Entry>
        ensures { option_map (λ e. as_held e.now) result ≡ slice_get self.now i }
    {
        match self.rows.as_slice().get(i) {
            Some(row) => Some(&row.entry),
            None => None,
        }
    }

    /// The entry of a key. The time is logarithmic in the number of entries.
    pub fn find(&self, key: &Key) -> Option<&Entry>
        ensures { option_map (λ e. as_held e.now) result ≡ find (folded_text key.now) self.now }
    {
        find_row(self.rows.as_slice(), key.id())
    }

    /// Puts the entry in the place of its id, where it replaces the one that is held there.
    ///
    /// # Errors
    ///
    /// `NotAnId` exactly where the entry's id is the id of no key. After an error the list is
    /// unchanged.
    pub fn put(&mut self, alloc: Global, entry: Entry) -> Result<(), PutFault>
        ensures held { self.new
            ≡ (if is_ok result then put (as_held entry) self.old else self.old) }
        ensures finds { OnOk result ((id : List ℕ) → find id self.new
            ≡ (if bytes_eq id (held_by (as_held entry)) then Some (as_held entry)
            else find id self.old)) }
        ensures named { OnOk result (HasKey entry.id) }
        ensures fault { IfErr result (RefusesPut entry.id) }
    {
        match order_of(alloc, &entry.id) {
            Ok(order) => Ok(put_row(&mut self.rows, Row { order, entry })?),
            Err(fault) => refuse(entry, fault),
        }
    }

    /// Removes the entry of a key and returns it, where there is one. It takes no memory.
    pub fn remove(&mut self, key: &Key) -> Option<Entry>
        ensures removed { option_map as_held result ≡ find (folded_text key.now) self.old }
        ensures held { self.new ≡ without (folded_text key.now) self.old }
        ensures finds { (id : List ℕ) → find id self.new
            ≡ (if bytes_eq id (folded_text key.now) then None else find id self.old) }
    {
        take_row(&mut self.rows, key.id())
    }

    /// An equal list of entries.
    pub fn copy(&self, alloc: Global) -> Result<Held, OutOfMemory>
        ensures { IfOk result (λ h. h ≡ self.now) }
    {
        let mut rows = Vec::with_capacity(alloc, self.rows.len())?;
        for row in self.rows.as_slice() {
            push_copy(alloc, &mut rows, row)?;
        }
        Ok(Held { rows })
    }
}

// Drops what is not put.
fn refuse<T: Drop>(_value: T, fault: PutFault) -> Result<(), PutFault>
    ensures { result ≡ Err fault }
{
    Err(fault)
}

// The id of the key whose id the text is: the text in small ASCII letters.
fn order_of(alloc: Global, id: &Text) -> Result<Text, PutFault>
    ensures order { IfOk result (λ t. t ≡ fold id.now) }
    ensures named { OnOk result (HasKey id.now) }
    ensures fault { IfErr result (RefusesPut id.now) }
{
    match Key::read_id(alloc, id.as_str()) {
        Ok(key) => Ok(key.into_id()),
        Err(IdFault::OutOfMemory) => Err(PutFault::OutOfMemory),
        Err(_) => Err(PutFault::NotAnId),
    }
}
