ghost use Rattle.std.specs.Prelude.{◌≡◌, length, IfOk};
ghost use Rattle.js_value.specs.Objects.{count_value};

use items::{Items, Memory};
use js_value::{Primitive, Value};
use std::alloc::{AllocError, Global};

/// The elements of an array, with their number as a value, which can be lent.
pub struct Elements {
    pub(crate) items: Vec<Value>,
    pub(crate) count: Value,
    ghost counted: { count ≡ count_value (length items.items) },
}

impl Drop for Elements {
    // Written out, so that what drops one calls this and needn't prove it again.
    fn drop(self) {
        let Elements { items, count } = self;
        drop(items);
        drop(count);
    }
}

impl Elements {
    ghost use Rattle.std.specs.Prelude.{[], ◌++◌, ◌∷◌, take, slice_set, ◌<◌, OnOk, OnErr};

    /// No elements, which take no memory.
    pub fn none(alloc: Global) -> Elements
        ensures { result.items.items ≡ [] }
    {
        Elements {
            items: Vec::new(alloc),
            count: Value::Primitive(Primitive::Number(0)),
        }
    }

    /// These elements.
    pub fn new(items: Items<Value>) -> Elements
        ensures { result.items.items ≡ items }
    {
        let items = items.into_vec();
        let count = count_of(&items);
        Elements { items, count }
    }

    /// The elements, lent.
    pub fn as_slice(&self) -> &[Value]
        ensures { result.now ≡ self.now.items.items }
    {
        self.items.as_slice()
    }

    /// Puts more elements after these. On want of memory nothing changes.
    pub fn append(&mut self, more: Items<Value>) -> Result<(), Memory>
        ensures ok { OnOk result (self.new.items.items ≡ self.old.items.items ++ more) }
        ensures err { OnErr result (self.new.items.items ≡ self.old.items.items) }
    {
        let mut more = more.into_vec();
        self.items.append(&mut more)?;
        write_over(&mut self.count, count_of(&self.items));
        Ok(())
    }

    /// Puts one more element after these. On want of memory nothing changes.
    pub fn push(&mut self, value: Value) -> Result<(), Memory>
        ensures ok { OnOk result (self.new.items.items ≡ self.old.items.items ++ value ∷ []) }
        ensures err { OnErr result (self.new.items.items ≡ self.old.items.items) }
    {
        self.items.push(value)?;
        write_over(&mut self.count, count_of(&self.items));
        Ok(())
    }

    /// Gives the element at this place the value, where there is one.
    pub fn put(&mut self, place: usize, value: Value)
        ensures { self.new.items.items ≡ slice_set self.old.items.items place value }
    {
        match self.items.get_mut(place) {
            Some(held) => write_over(held, value),
            None => drop(value),
        }
    }

    /// Leaves the first so many elements, and no others.
    pub fn cut(&mut self, size: usize)
        ensures { self.new.items.items ≡ take size self.old.items.items }
    {
        if size < self.items.len() {
            self.items.truncate(size);
            write_over(&mut self.count, count_of(&self.items));
        }
    }
}

/// Writes a value over another one. Apart, so that the drop of what was there is proved once.
pub(crate) fn write_over(held: &mut Value, value: Value)
    ensures { held.new ≡ value }
{
    *held = value;
}

/// The number of these elements as a value: no more stand in memory than a number can tell.
fn count_of(items: &Vec<Value>) -> Value
    ensures { result ≡ count_value (length items.now.items) }
{
    Value::Primitive(Primitive::Number(items.len() as i64))
}

/// A count as a value. More than a number can tell is answered as want of memory.
pub(crate) fn number_of(count: usize) -> Result<Value, Memory>
    ensures { IfOk result (λ value. value ≡ count_value count) }
{
    match i64::try_from(count) {
        Ok(number) => Ok(Value::Primitive(Primitive::Number(number))),
        Err(_) => Err(AllocError),
    }
}
