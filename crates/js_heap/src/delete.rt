// Deletes of an object's properties (ECMA-262, 10.1.10).

ghost use Rattle.std.specs.Prelude.{◌≡◌};
ghost use Rattle.js_value.specs.Objects as spec;
ghost use Rattle.js_heap.specs.Object.{plain_object, plain_delete, property_with};
ghost use Rattle.js_heap.specs.private.Object.{with_deleted, with_removed, array_delete};

use crate::object::{Flags, ObjectKind, ObjectRecord, is_length};
use js_value::{Str, index_of};

/// What a delete of a property answers.
#[derive(Clone, Copy, PartialEq, Eq)]
pub enum Delete {
    /// There is no such property any more, or there was none.
    Done,
    /// The property stays.
    Frozen,
    /// The delete would leave a hole in an array.
    Sparse,
}

/// The key of what a function's objects inherit from.
const PROTOTYPE: [u16; 9] = [112, 114, 111, 116, 111, 116, 121, 112, 101];

/// What a delete of an own property of this key answers, of an array that isn't frozen.
fn delete_of_array(key: &Str) -> Delete
    ensures { plain_delete result ≡ array_delete key.now }
{
    match index_of(key.as_slice()) {
        Some(_) => Delete::Sparse,
        None if is_length(key) => Delete::Frozen,
        None => Delete::Done,
    }
}

impl ObjectRecord {
    ghost use Rattle.js_value.specs.declared.value.Value.{Value};

    /// Deletes its own property of this key.
    pub fn delete(&mut self, key: &Str) -> Delete
        ensures answer { plain_delete result ≡ spec.delete_from (plain_object self.old) key.now }
        ensures after { plain_object self.new ≡ with_deleted key.now (plain_object self.old) }
    {
        let answer = self.delete_of(key);
        if answer == Delete::Done {
            self.remove(key);
        }
        answer
    }

    /// What a delete of this key answers.
    fn delete_of(&self, key: &Str) -> Delete
        ensures { plain_delete result ≡ spec.delete_from (plain_object self.now) key.now }
    {
        match self.own(key) {
            Some((_, flags)) => self.delete_of_own(key, flags),
            None => Delete::Done,
        }
    }

    /// What a delete of its own property of this key answers, that has these flags.
    fn delete_of_own(&self, key: &Str, flags: Flags) -> Delete
        ensures { (v : Value) → plain_delete result
            ≡ spec.delete_of (plain_object self.now) (property_with key.now v flags) }
    {
        if self.frozen {
            return Delete::Frozen;
        }
        match self.kind {
            ObjectKind::Array => delete_of_array(key),
            ObjectKind::BuiltIn(_) | ObjectKind::Written(_, _)
                if !flags.enumerable && key.as_slice() == PROTOTYPE.as_slice() => { Delete::Frozen }
            _ => Delete::Done,
        }
    }

    /// Takes its own property of this key away, if there is one.
    fn remove(&mut self, key: &Str)
        ensures { plain_object self.new
            ≡ with_removed key.now (plain_object self.old) }
    {
        self.properties.remove(key);
    }
}
