// The own keys of an object (ECMA-262, 10.1.11).

ghost use Rattle.std.specs.Prelude.{◌≡◌, [], ◌∷◌, ◌++◌, false, IfOk, OnOk, map, pos};
ghost use Rattle.js_value.specs.Numbers.{decimal_text};
ghost use Rattle.js_value.specs.Key as spec;
ghost use Rattle.js_value.specs.Objects.{keys_of_object, index_keys, array_length};
ghost use Rattle.js_heap.specs.Object.{plain_property, plain_object};

use crate::object::{LENGTH, ObjectKind, ObjectRecord, Property};
use items::{Items, Memory};
use js_value::{Key, Str, index_of, show_number};
use std::alloc::{AllocError, Global};
use std::collections::BTreeMap;

/// An object's own keys (ECMA-262, 10.1.11).
pub(crate) fn keys_of(alloc: Global, object: &ObjectRecord) -> Result<Items<Key>, Memory>
    ensures { IfOk result (λ keys. keys ≡ keys_of_object (plain_object object.now)) }
{
    let mut keys = Items::new(alloc);
    if matches!(object.kind, ObjectKind::Array) {
        put_dense(alloc, &mut keys, object.elements.items.len())?;
    }
    put_indices(alloc, &mut keys, object.properties.as_slice())?;
    put_others(&mut keys, object.properties.as_slice())?;
    Ok(keys)
}

/// Puts the keys of so many elements after others, and then that of their number.
pub(crate) fn put_dense(alloc: Global, keys: &mut Items<Key>, count: usize) -> Result<(), Memory>
    ensures { OnOk result (keys.new ≡ keys.old ++ (index_keys 0 count
        ++ record { key = array_length; enumerable = false } ∷ [])) }
{
    put_elements(alloc, keys, count)?;
    let key = Str::from_vec(Vec::from_slice(alloc, &LENGTH)?)?;
    keys.push(Key {
        key,
        enumerable: false,
    })
}

/// Puts the keys of so many elements after others.
fn put_elements(alloc: Global, keys: &mut Items<Key>, count: usize) -> Result<(), Memory>
    ensures { OnOk result (keys.new ≡ keys.old ++ index_keys 0 count) }
{
    for index in 0..count {
        let key = show_index(alloc, index)?;
        keys.push(Key {
            key,
            enumerable: true,
        })?;
    }
    Ok(())
}

/// The text of an index.
pub fn show_index(alloc: Global, index: usize) -> Result<Str, Memory>
    ensures { IfOk result (λ text. text ≡ decimal_text (pos index)) }
{
    match i64::try_from(index) {
        Ok(number) => show_number(alloc, number),
        Err(_) => Err(AllocError),
    }
}

/// The key of a property, and whether it is enumerable.
fn key_of(property: &Property) -> Result<Key, Memory>
    ensures { IfOk result (λ key. key ≡ spec.key_of (plain_property property.now)) }
{
    Ok(Key {
        key: property.key.copy()?,
        enumerable: property.flags.enumerable,
    })
}

/// Puts the keys that are no indices after others.
fn put_others(keys: &mut Items<Key>, properties: &[Property]) -> Result<(), Memory>
    ensures { OnOk result (keys.new ≡ keys.old ++ spec.others (map plain_property properties.now)) }
{
    for property in properties {
        if index_of(property.key.as_slice()).is_none() {
            keys.push(key_of(property)?)?;
        }
    }
    Ok(())
}

/// Puts the keys that are indices after others, ascending.
fn put_indices(alloc: Global, keys: &mut Items<Key>, properties: &[Property]) -> Result<(), Memory>
    ensures { OnOk result (keys.new ≡ keys.old
        ++ map (λ x. x.1) (spec.indexed (map plain_property properties.now))) }
{
    for (_, key) in indexed(alloc, properties)? {
        keys.push(key)?;
    }
    Ok(())
}

/// The keys that are indices, by these.
fn indexed(alloc: Global, properties: &[Property]) -> Result<BTreeMap<u32, Key>, Memory>
    ensures { IfOk result (λ sorted. sorted.entries ≡ spec.indexed (map plain_property properties.now)) }
{
    let mut sorted = BTreeMap::new(alloc);
    for property in properties {
        if let Some(index) = index_of(property.key.as_slice()) {
            drop(sorted.insert(index, key_of(property)?)?);
        }
    }
    Ok(sorted)
}
