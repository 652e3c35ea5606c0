// Writes to an object's properties (ECMA-262, 10.1.9 and 10.4.2).

ghost use Rattle.std.specs.Prelude.{◌≡◌, ℕ, List, Some, None, IfOk, OnOk, OnErr, if◌then◌else◌};
ghost use Rattle.js_value.specs.Objects as spec;
ghost use Rattle.js_value.specs.State as state;
ghost use Rattle.js_heap.specs.Object.{plain_object, plain_set};
ghost use Rattle.js_heap.specs.private.Write.{plain_write, Placed, own_write, array_write, element_write, length_write, property_write, performed};

use crate::object::{ELEMENT, ObjectKind, ObjectRecord, Property, is_length};
use items::Memory;
use js_value::{Primitive, Str, Value, index_of};

/// What a write to a property answers.
#[derive(Clone, Copy)]
pub enum Set {
    /// The property has the value.
    Done,
    /// The property may not be written, or there can be none.
    ReadOnly,
    /// The write would leave a hole in an array.
    Sparse,
    /// A length can't be negative.
    BadLength,
}

/// What a write to a property is. Of one that is there and no element, its place is told.
#[derive(Clone, Copy)]
pub(crate) enum Write {
    Replaces(usize),
    Adds,
    Puts(u32),
    Appends,
    Cuts(usize),
    ReadOnly,
    Sparse,
    BadLength,
}

impl Write {
    /// What the write answers.
    pub fn answer(self) -> Set
        ensures { plain_set result ≡ spec.set_by (plain_write self) }
    {
        match self {
            Write::Replaces(_) | Write::Adds | Write::Puts(_) | Write::Appends | Write::Cuts(_) =>
                Set::Done,
            Write::ReadOnly => Set::ReadOnly,
            Write::Sparse => Set::Sparse,
            Write::BadLength => Set::BadLength,
        }
    }
}

/// A write of an array's length (10.4.2.4), where it may be written.
fn write_of_length(has: usize, value: &Value) -> Write
    ensures write { plain_write result ≡ spec.write_of_length has value.now }
    ensures place { (key : List ℕ) (ps : List state.Property) → Placed result key ps }
{
    let Value::Primitive(Primitive::Number(number)) = value else {
        return Write::BadLength;
    };
    match usize::try_from(*number) {
        Ok(size) if has < size => Write::Sparse,
        Ok(size) => Write::Cuts(size),
        Err(_) => Write::BadLength,
    }
}

impl ObjectRecord {
    ghost use Rattle.std.specs.Prelude.{option_map, IfSome};
    ghost use Rattle.js_heap.specs.private.Object.{takes_element, with_element};

    /// Does a write. On want of memory nothing changes.
    pub fn set(&mut self, write: Write, key: &Str, value: Value) -> Result<Set, Memory>
        ensures answer { IfOk result (λ set. plain_set set ≡ spec.set_by (plain_write write)) }
        ensures ok { OnOk result (plain_object self.new ≡ performed (plain_object self.old) write key.now value) }
        ensures err { OnErr result (plain_object self.new ≡ plain_object self.old) }
    {
        self.perform(write, key, value)?;
        Ok(write.answer())
    }

    /// A write to its own property of this key, where it has one. The key is looked up once.
    pub fn write_of_own(&self, key: &Str, value: &Value) -> Option<Write>
        ensures write { option_map plain_write result ≡ own_write (plain_object self.now) key.now value.now }
        ensures place { IfSome result (λ write. Placed write key.now (plain_object self.now).properties) }
    {
        match self.kind {
            ObjectKind::Array => self.write_of_array(key, value),
            _ => self.write_of_property(key),
        }
    }

    /// The same of an array.
    fn write_of_array(&self, key: &Str, value: &Value) -> Option<Write>
        ensures write { option_map plain_write result ≡ array_write (plain_object self.now) key.now value.now }
        ensures place { IfSome result (λ write. Placed write key.now (plain_object self.now).properties) }
    {
        match index_of(key.as_slice()) {
            Some(index) => self.write_of_element(index),
            None if is_length(key) => Some(self.write_of_length(value)),
            None => self.write_of_property(key),
        }
    }

    /// A write to its element at this index, where it has one.
    fn write_of_element(&self, index: u32) -> Option<Write>
        ensures write { option_map plain_write result ≡ element_write (plain_object self.now) index }
        ensures place { (key : List ℕ) → IfSome result (λ write. Placed write key (plain_object self.now).properties) }
    {
        if index as usize >= self.elements.items.len() {
            return None;
        }
        Some(if self.frozen {
            Write::ReadOnly
        } else {
            Write::Puts(index)
        })
    }

    /// A write to its length, as an array.
    fn write_of_length(&self, value: &Value) -> Write
        ensures write { plain_write result ≡ length_write (plain_object self.now) value.now }
        ensures place { (key : List ℕ) → Placed result key (plain_object self.now).properties }
    {
        if self.frozen {
            Write::ReadOnly
        } else {
            write_of_length(self.elements.items.len(), value)
        }
    }

    /// A write to its property of this key that is none of an array, where it has one.
    fn write_of_property(&self, key: &Str) -> Option<Write>
        ensures write { option_map plain_write result ≡ property_write (plain_object self.now) key.now }
        ensures place { IfSome result (λ write. Placed write key.now (plain_object self.now).properties) }
    {
        let place = self.properties.place_of(key)?;
        Some(if self.may_write(self.properties.items[place].flags) {
            Write::Replaces(place)
        } else {
            Write::ReadOnly
        })
    }

    /// A new property.
    pub fn write_of_new(&self, key: &Str) -> Write
        ensures write { plain_write result ≡ spec.write_of_new (plain_object self.now) key.now }
        ensures place { Placed result key.now (plain_object self.now).properties }
    {
        if !matches!(self.kind, ObjectKind::Array) {
            return Write::Adds;
        }
        match index_of(key.as_slice()) {
            Some(index) if index as usize == self.elements.items.len() => Write::Appends,
            Some(_) => Write::Sparse,
            None => Write::Adds,
        }
    }

    /// Does the write. On want of memory nothing changes.
    fn perform(&mut self, write: Write, key: &Str, value: Value) -> Result<(), Memory>
        ensures ok { OnOk result (plain_object self.new ≡ performed (plain_object self.old) write key.now value) }
        ensures err { OnErr result (plain_object self.new ≡ plain_object self.old) }
    {
        match write {
            Write::Replaces(place) => self.properties.put(place, value),
            Write::Adds => {
                let property = Property::new(key, value, ELEMENT)?;
                return self.properties.push(property);
            }
            Write::Puts(index) => self.elements.put(index as usize, value),
            Write::Appends => return self.elements.push(value),
            Write::Cuts(size) => {
                drop(value);
                self.elements.cut(size);
            }
            Write::ReadOnly | Write::Sparse | Write::BadLength => drop(value),
        }
        Ok(())
    }

    /// Gives the element at this index the value, where this is an array that isn't frozen and has one; else gives the value
    /// back.
    pub fn put_element(&mut self, index: u64, value: Value) -> Option<Value>
        ensures answer { result ≡ (if takes_element (plain_object self.old) index then None else Some value) }
        ensures after { plain_object self.new ≡ with_element index value (plain_object self.old) }
    {
        if !self.takes_element(index) {
            return Some(value);
        }
        self.elements.put(index as usize, value);
        None
    }

    /// Whether this is an array that isn't frozen and has an element at this index.
    fn takes_element(&self, index: u64) -> bool
        ensures { result ≡ takes_element (plain_object self.now) index }
    {
        matches!(self.kind, ObjectKind::Array)
            && !self.frozen
            && index < 0xFFFF_FFFF
            && index < self.elements.items.len() as u64
    }
}
