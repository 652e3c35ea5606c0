ghost use Rattle.std.specs.Prelude.{◌≡◌, option_map};
ghost use Rattle.std.specs.Str.{bytes_eq};
ghost use Rattle.js_value.specs.Objects.{array_length};

use crate::Env;
use crate::elements::Elements;
use crate::properties::Properties;
use items::Memory;
use js_value::{Object, Str, Value, index_of};
use std::alloc::Global;

/// What an object is (ECMA-262, 10.1 to 10.4).
#[derive(Clone, Copy)]
pub enum ObjectKind {
    /// An ordinary object (10.1).
    Plain,
    /// An array (10.4.2).
    Array,
    /// An error (20.5).
    Error,
    /// A regular expression (22.2).
    RegExp,
    /// A built-in function (10.3), by its number in the table of the host.
    BuiltIn(u32),
    /// A function of the program (10.2): the number of its code, and the environment that it closes
    /// over.
    Written(u64, Env),
}

/// The attributes of a data property (6.1.7.1).
#[derive(Clone, Copy)]
pub struct Flags {
    /// Whether it is enumerated.
    pub enumerable: bool,
    /// Whether it may be written.
    pub writable: bool,
}

/// The flags of an element.
pub(crate) const ELEMENT: Flags = Flags {
    enumerable: true,
    writable: true,
};

/// The flags of an array's length.
const LENGTH_FLAGS: Flags = Flags {
    enumerable: false,
    writable: true,
};

/// The key of an array's length.
pub(crate) const LENGTH: [u16; 6] = [108, 101, 110, 103, 116, 104];

/// Whether this is the key of an array's length.
pub(crate) fn is_length(key: &Str) -> bool
    ensures { result ≡ bytes_eq key.now array_length }
{
    key.as_slice() == LENGTH.as_slice()
}

/// A data property (6.1.7.1).
pub struct Property {
    pub key: Str,
    pub value: Value,
    pub flags: Flags,
}

impl Drop for Property {
    // Written out, so that what drops one calls this and needn't prove it again.
    fn drop(self) {
        let Property {
            key,
            value,
            flags: _,
        } = self;
        drop(key);
        drop(value);
    }
}

impl Property {
    ghost use Rattle.std.specs.Prelude.{IfOk};
    ghost use Rattle.js_heap.specs.Object.{plain_property, property_with};

    /// A property of this key.
    pub fn new(key: &Str, value: Value, flags: Flags) -> Result<Property, Memory>
        ensures { IfOk result (λ made. plain_property made ≡ property_with key.now value flags) }
    {
        Ok(Property {
            key: key.copy()?,
            value,
            flags,
        })
    }

    /// Whether this is its key.
    pub fn has(&self, key: &Str) -> bool
        ensures { result ≡ bytes_eq self.now.key key.now }
    {
        self.key.as_slice() == key.as_slice()
    }
}

/// An object, with the elements that it has where it is an array, and its other own properties in the
/// order in which they were added.
pub struct ObjectRecord {
    pub kind: ObjectKind,
    pub prototype: Option<Object>,
    pub frozen: bool,
    pub elements: Elements,
    pub properties: Properties,
}

impl Drop for ObjectRecord {
    // Written out, so that what drops one calls this and needn't prove it again.
    fn drop(self) {
        let ObjectRecord {
            kind: _,
            prototype: _,
            frozen: _,
            elements,
            properties,
        } = self;
        drop(elements);
        drop(properties);
    }
}

impl ObjectRecord {
    ghost use Rattle.std.specs.Prelude.{◌<◌, ◌-◌, ◌^◌, [], true, false, not, ◌&&◌, Some, None, pos};
    ghost use Rattle.js_value.specs.Numbers.{decimal_text};
    ghost use Rattle.std.specs.Option.{option_copied};
    ghost use Rattle.js_value.specs.State.{Array};
    ghost use Rattle.js_value.specs.Objects.{property_of, own_of, own_of_array};
    ghost use Rattle.js_heap.specs.private.Object.{element_in, ends_at};
    ghost use Rattle.js_heap.specs.Object.{plain_kind, plain_property, plain_object, property_with};

    /// An object of no elements and no other properties, which takes no memory.
    pub fn new(alloc: Global, kind: ObjectKind, prototype: Option<Object>) -> ObjectRecord
        ensures { plain_object result ≡ record {
          kind = plain_kind kind;
          prototype = option_map (λ o. o.index) prototype;
          frozen = false;
          elements = [];
          properties = [];
        } }
    {
        ObjectRecord {
            kind,
            prototype,
            frozen: false,
            elements: Elements::none(alloc),
            properties: Properties::none(alloc),
        }
    }

    /// An array of these elements, with no other properties (10.4.2.2).
    pub fn array(alloc: Global, prototype: Object, elements: Elements) -> ObjectRecord
        ensures { plain_object result ≡ record {
          kind = Array;
          prototype = Some prototype.index;
          frozen = false;
          elements = elements.items.items;
          properties = [];
        } }
    {
        ObjectRecord {
            kind: ObjectKind::Array,
            prototype: Some(prototype),
            frozen: false,
            elements,
            properties: Properties::none(alloc),
        }
    }

    /// Its own property of this key that is none of an array.
    fn property(&self, key: &Str) -> Option<(&Value, Flags)>
        ensures { option_map (λ found. property_with key.now found.0.now found.1) result
            ≡ property_of (plain_object self.now).properties key.now }
    {
        let place = self.properties.place_of(key)?;
        let property = &self.properties.items[place];
        Some((&property.value, property.flags))
    }

    /// Whether a property with these flags may be written: in a frozen object none may.
    pub fn may_write(&self, flags: Flags) -> bool
        ensures { result ≡ (flags.writable && not self.now.frozen) }
    {
        flags.writable && !self.frozen
    }

    /// Its own property of this key (10.1.5): its value, lent, and its flags.
    pub fn own(&self, key: &Str) -> Option<(&Value, Flags)>
        ensures { option_map (λ found. property_with key.now found.0.now found.1) result
            ≡ own_of (plain_object self.now) key.now }
    {
        match self.kind {
            ObjectKind::Array => self.own_of_array(key),
            _ => self.property(key),
        }
    }

    /// The element of an array at an index, lent. None where this is no array or has no such element, or the number is no index.
    pub fn element(&self, index: u64) -> Option<&Value>
        ensures { option_copied result ≡ element_in (plain_object self.now) index }
    {
        match self.kind {
            ObjectKind::Array if index < 0xFFFF_FFFF => self.elements.items.get(index as usize),
            _ => None,
        }
    }

    /// Whether this is an array that isn't frozen, whose elements end where this index begins.
    pub fn ends_at(&self, index: u64) -> bool
        ensures { result ≡ ends_at (plain_object self.now) index }
    {
        matches!(self.kind, ObjectKind::Array)
            && !self.frozen
            && index < 0xFFFF_FFFF
            && index == self.elements.items.len() as u64
    }

    /// Whether this surely has no property of an index's key: an array that has no such element, another object none of whose
    /// keys is an index.
    pub fn lacks(&self, index: u64) -> bool
        ensures { result ≡ true → index < 2 ^ 32 - 1 → own_of (plain_object self.now) (decimal_text (pos index)) ≡ None }
    {
        match self.kind {
            ObjectKind::Array => index >= self.elements.items.len() as u64,
            _ => self.properties.lacks_indices(),
        }
    }

    /// The property of this key that an array has: an element, its length, or another.
    fn own_of_array(&self, key: &Str) -> Option<(&Value, Flags)>
        ensures { option_map (λ found. property_with key.now found.0.now found.1) result
            ≡ own_of_array (plain_object self.now) key.now }
    {
        match index_of(key.as_slice()) {
            Some(index) => Some((self.elements.items.get(index as usize)?, ELEMENT)),
            None if is_length(key) => Some((&self.elements.count, LENGTH_FLAGS)),
            None => self.property(key),
        }
    }
}
