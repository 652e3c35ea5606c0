ghost use Rattle.std.specs.Prelude.{◌≡◌, [], ◌∷◌, ◌++◌, true, false, ◌||◌, is_some, map, filter, not, IfOk};
ghost use Rattle.std.specs.Option.{ForSome};
ghost use Rattle.std.specs.Str.{bytes_eq};
ghost use Rattle.indexmap.specs.IndexSet.{keys};
ghost use Rattle.js_value.specs.Key as spec;
ghost use Rattle.js_heap.specs.private.Keys.{NoIndices};

use crate::elements::write_over;
use crate::object::Property;
use indexmap::IndexSet;
use items::Memory;
use js_value::{Str, Value, index_of as index_by};
use std::alloc::Global;

/// How many properties are looked for along their list.
const FEW: usize = 8;

/// The properties of an object that are no elements, in the order in which they were added. A few of
/// them are looked for along their list, which is quick and takes the least memory. From 9 on their
/// keys also stand in an index, each at its property's place. Where no key was an index of an array's element, it is told.
pub struct Properties {
    pub(crate) items: Vec<Property>,
    has_indices: bool,
    index: Option<Box<IndexSet<Str>>>,
    ghost unindexed: { has_indices ≡ false → NoIndices (map (λ p. p.key) items.items) },
    ghost indexed: { ForSome index (λ i. keys i.value ≡ map (λ p. p.key) items.items) },
}

impl Drop for Properties {
    // Written out, so that what drops one calls this and needn't prove it again.
    fn drop(self) {
        let Properties {
            items,
            has_indices: _,
            index,
        } = self;
        drop(items);
        drop(index);
    }
}

/// Whether some of these keys are indices, or one more is.
fn with_index(has_indices: bool, key: &Str) -> bool
    ensures { result ≡ (has_indices || is_some (spec.index_of key.now)) }
{
    has_indices || index_by(key.as_slice()).is_some()
}

/// The index of these properties. There is none where two have one key.
fn index_of(alloc: Global, properties: &[Property]) -> Result<Option<Box<IndexSet<Str>>>, Memory>
    ensures { IfOk result (λ made. ForSome made (λ i. keys i.value ≡ map (λ p. p.key) properties.now)) }
{
    let mut index = Box::new(alloc, IndexSet::new(alloc))?;
    for property in properties {
        match with_key(index, &property.key)? {
            Some(more) => index = more,
            None => return Ok(None),
        }
    }
    Ok(Some(index))
}

/// The index with one more key. There is none where it has the key.
fn with_key(index: Box<IndexSet<Str>>, key: &Str) -> Result<Option<Box<IndexSet<Str>>>, Memory>
    ensures { IfOk result (λ made. ForSome made (λ i. keys i.value ≡ keys index.value ++ key.now ∷ [])) }
{
    let mut index = index;
    let is_new = index.insert(key.copy()?)?;
    Ok(is_new.then_some(index))
}

/// The index without the key.
fn without_key(index: Box<IndexSet<Str>>, key: &Str) -> Box<IndexSet<Str>>
    ensures { keys result.value ≡ filter (λ k. not (bytes_eq k key.now)) (keys index.value) }
{
    let mut index = index;
    index.retain(|held| held.as_slice() != key.as_slice());
    index
}

impl Properties {
    ghost use Rattle.std.specs.Prelude.{OnOk, OnErr, None, position};
    ghost use Rattle.js_value.specs.Objects.{with_property};
    ghost use Rattle.js_heap.specs.Object.{plain_property, plain_properties};
    ghost use Rattle.js_heap.specs.private.Object.{with_value_at};

    /// No properties, which take no memory.
    pub fn none(alloc: Global) -> Properties
        ensures { result.items.items ≡ [] }
    {
        Properties {
            items: Vec::new(alloc),
            has_indices: false,
            index: None,
        }
    }

    /// The properties, lent.
    pub fn as_slice(&self) -> &[Property]
        ensures { result.now ≡ self.now.items.items }
    {
        self.items.as_slice()
    }

    /// The place of the property of this key.
    pub fn place_of(&self, key: &Str) -> Option<usize>
        ensures { result ≡ position (λ p. bytes_eq p.key key.now) self.now.items.items }
    {
        match &self.index {
            Some(index) => index.get_index_of(key),
            None => self.items.iter().position(|property| property.has(key)),
        }
    }

    /// Whether surely no key is an index.
    pub fn lacks_indices(&self) -> bool
        ensures { result ≡ true → NoIndices (map (λ p. p.key) self.now.items.items) }
    {
        !self.has_indices
    }

    /// Puts one more property after the others. On want of memory nothing changes.
    pub fn push(&mut self, property: Property) -> Result<(), Memory>
        ensures ok { OnOk result (self.new.items.items ≡ self.old.items.items ++ property ∷ []) }
        ensures err { OnErr result (self.new.items.items ≡ self.old.items.items) }
    {
        self.items.reserve(1)?;
        let index = self.index_with(&property.key)?;
        self.has_indices = with_index(self.has_indices, &property.key);
        self.items.push_reserved(property);
        self.index = index;
        Ok(())
    }

    /// The index of these properties and one more of this key, where there are more than a few. It is
    /// taken away from these.
    fn index_with(&mut self, key: &Str) -> Result<Option<Box<IndexSet<Str>>>, Memory>
        ensures index { IfOk result (λ made. ForSome made (λ i. keys i.value ≡ map (λ p. p.key) self.old.items.items ++ key.now ∷ [])) }
        ensures items { self.new.items ≡ self.old.items }
        ensures none { self.new.index ≡ None }
    {
        if let Some(index) = self.index.take() {
            return with_key(index, key);
        }
        if self.items.len() < FEW {
            return Ok(None);
        }
        match index_of(*self.items.allocator(), self.items.as_slice())? {
            Some(index) => with_key(index, key),
            None => Ok(None),
        }
    }

    /// Puts the property in the place of the one of its key, or after the others. On want of memory
    /// nothing changes.
    pub fn define(&mut self, property: Property) -> Result<(), Memory>
        ensures ok { OnOk result (plain_properties self.new
            ≡ with_property (plain_property property) (plain_properties self.old)) }
        ensures err { OnErr result (plain_properties self.new ≡ plain_properties self.old) }
    {
        match self.place_of(&property.key) {
            Some(place) => {
                self.items[place] = property;
                Ok(())
            }
            None => self.push(property),
        }
    }

    /// Gives the property at this place, where there is one, the value.
    pub fn put(&mut self, place: usize, value: Value)
        ensures { plain_properties self.new ≡ with_value_at place value (plain_properties self.old) }
    {
        match self.items.get_mut(place) {
            Some(property) => write_over(&mut property.value, value),
            None => drop(value),
        }
    }

    /// Takes the properties of this key away. Where there is none nothing is gone along.
    pub fn remove(&mut self, key: &Str)
        ensures { self.new.items.items ≡ filter (λ p. not (bytes_eq p.key key.now)) self.old.items.items }
    {
        if self.place_of(key).is_some() {
            self.take_out(key);
        }
    }

    /// The same, along the whole list and the whole index.
    fn take_out(&mut self, key: &Str)
        ensures { self.new.items.items ≡ filter (λ p. not (bytes_eq p.key key.now)) self.old.items.items }
    {
        let index = self.index.take();
        self.items.retain(|property| !property.has(key));
        if let Some(index) = index {
            self.index = Some(without_key(index, key));
        }
    }
}
