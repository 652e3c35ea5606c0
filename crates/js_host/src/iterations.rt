// What a `for` with `in` or `of` goes through (ECMA-262, 14.7.5.9, 22.1.5 and 23.1.5).

ghost use Rattle.std.specs.Prelude.{◌≡◌, ◌+◌, ◌<◌, ◌≤◌, ◌++◌, ◌&&◌, [], Some, None, IfOk, IfSome, MatchOption, map, drop, length, slice_index_or, option_map};
ghost use Rattle.indexmap.specs.IndexSet as set;
ghost use Rattle.js_value.specs.Iterations as spec;
ghost use Rattle.js_value.specs.Host as host;
ghost use Rattle.js_value.specs.Objects.{object_in, keys_of_object};
ghost use Rattle.js_heap.specs.Heap.{heap_of};
ghost use Rattle.js_data.specs.Does.{Does};
ghost use Rattle.js_host.specs.Iteration.{plain_iteration, plain_items};
ghost use Rattle.js_value.specs.Texts as texts;
ghost use Rattle.js_host.specs.private.Met.{SameMet, size_of};
ghost use Rattle.js_value.specs.Realm.{text};

use indexmap::IndexSet;
use items::{Items, Memory};
use js_heap::{Heap, ObjectKind};
use js_value::{Complaint, Halt, Key, Object, Primitive, Str, Value};
use std::alloc::Global;

/// What is left of what a `for` with `in` or `of` goes through.
#[derive(Drop)]
pub enum Iteration {
    /// Keys of a value, from one on.
    Keys {
        /// The value.
        of: Value,
        /// All keys that it had at the start.
        keys: Items<Str>,
        /// The place of the next.
        next: usize,
    },
    /// Elements of an array, from one on.
    Elements {
        /// The array.
        array: Object,
        /// The index of the next.
        next: usize,
    },
    /// Characters of a text, from one on.
    Characters {
        /// The text.
        units: Str,
        /// The place of the next one's first unit.
        next: usize,
    },
}

/// The keys that a value has now, for `for in`.
pub fn iterate_keys(alloc: Global, heap: &Heap, value: Value) -> Result<Iteration, Memory>
    ensures { IfOk result (λ all. plain_iteration all ≡ spec.Keys value (spec.keys_of (heap_of heap.now) value)) }
{
    let keys = keys_of(alloc, heap, &value)?;
    Ok(Iteration::Keys {
        of: value,
        keys,
        next: 0,
    })
}

/// The enumerable keys of a value, its own and those that it inherits.
fn keys_of(alloc: Global, heap: &Heap, value: &Value) -> Result<Items<Str>, Memory>
    ensures { IfOk result (λ keys. keys ≡ spec.keys_of (heap_of heap.now) value.now) }
{
    match value {
        Value::Object(object) => keys_along(alloc, heap, *object),
        Value::Primitive(Primitive::Text(units)) => keys_of_text(alloc, heap, units),
        Value::Primitive(_) => Ok(Items::new(alloc)),
    }
}

/// The enumerable keys of a text.
fn keys_of_text(alloc: Global, heap: &Heap, units: &Str) -> Result<Items<Str>, Memory>
    ensures { IfOk result (λ keys. keys ≡ spec.unmet [] (texts.keys_of_text units.now)) }
{
    let own = heap.keys_of_text(units)?;
    let met = IndexSet::new(alloc);
    let mut keys = Items::new(alloc);
    put_unmet(own.as_slice(), &met, &mut keys)?;
    Ok(keys)
}

/// The enumerable keys of an object and of what it inherits from, each once.
fn keys_along(alloc: Global, heap: &Heap, object: Object) -> Result<Items<Str>, Memory>
    ensures { IfOk result (λ keys. keys ≡ spec.keys_along (object.index + 1) (heap_of heap.now).objects (Some object.index) []) }
{
    let mut keys = Items::new(alloc);
    let mut met = IndexSet::new(alloc);
    put_own(heap, object, &mut keys, &mut met)?;
    let mut chain = heap.proto(object);
    for _ in 0..object.index() {
        let Some(at) = chain else {
            return Ok(keys);
        };
        put_own(heap, at, &mut keys, &mut met)?;
        chain = heap.proto(at);
    }
    Ok(keys)
}

/// Puts the enumerable keys of an object that weren't met at the end, and then all its keys among those that were.
fn put_own(
    heap: &Heap,
    object: Object,
    keys: &mut Items<Str>,
    met: &mut IndexSet<Str>,
) -> Result<(), Memory>
    ensures keys { IfOk result (λ _. keys.new ≡ keys.old
        ++ spec.unmet (set.keys met.old) (keys_of_object (object_in (heap_of heap.now).objects object.index))) }
    ensures met { IfOk result (λ _. SameMet (set.keys met.new)
        (map (λ k. k.key) (keys_of_object (object_in (heap_of heap.now).objects object.index)) ++ set.keys met.old)) }
{
    let own = heap.keys(object)?;
    put_unmet(own.as_slice(), met, keys)?;
    put_met(own.as_slice(), met)
}

/// Puts the enumerable ones that weren't met at the end.
fn put_unmet(own: &[Key], met: &IndexSet<Str>, keys: &mut Items<Str>) -> Result<(), Memory>
    ensures { IfOk result (λ _. keys.new ≡ keys.old ++ spec.unmet (set.keys met.now) own.now) }
{
    for key in own {
        if key.enumerable && !met.contains(&key.key) {
            keys.push(key.key.copy()?)?;
        }
    }
    Ok(())
}

/// Puts keys among those that were met.
fn put_met(own: &[Key], met: &mut IndexSet<Str>) -> Result<(), Memory>
    ensures { IfOk result (λ _. SameMet (set.keys met.new) (map (λ k. k.key) own.now ++ set.keys met.old)) }
{
    for key in own {
        met.insert(key.key.copy()?)?;
    }
    Ok(())
}

/// What `for of` goes through: an array or a text.
pub fn iterate_items(heap: &Heap, value: &Value) -> Result<Iteration, Halt>
    ensures { Does (spec.iterated (heap_of heap.now) value.now) (plain_items result) }
{
    match value {
        Value::Object(object) => match heap.kind(*object) {
            ObjectKind::Array => Ok(Iteration::Elements {
                array: *object,
                next: 0,
            }),
            _ => Err(Halt::Throw(Complaint::NotIterable)),
        },
        Value::Primitive(Primitive::Text(units)) => Ok(Iteration::Characters {
            units: units.copy()?,
            next: 0,
        }),
        Value::Primitive(_) => Err(Halt::Throw(Complaint::NotIterable)),
    }
}

/// The next key or item that is there, and what is left then.
pub fn take_next(
    alloc: Global,
    heap: &Heap,
    rest: Iteration,
) -> Result<Option<(Value, Iteration)>, Memory>
    ensures { IfOk result (λ found. spec.next_of (heap_of heap.now) (plain_iteration rest)
        ≡ option_map (λ t. spec.taken t.0 (plain_iteration t.1)) found) }
{
    match rest {
        Iteration::Keys { of, keys, next } => take_key(heap, of, keys, next),
        Iteration::Elements { array, next } => take_element(heap, array, next),
        Iteration::Characters { units, next } => take_character(alloc, units, next),
    }
}

/// The next key that is still there.
fn take_key(
    heap: &Heap,
    of: Value,
    keys: Items<Str>,
    next: usize,
) -> Result<Option<(Value, Iteration)>, Memory>
    ensures { IfOk result (λ found. spec.next_key (heap_of heap.now) of (drop next keys)
        ≡ option_map (λ t. spec.taken t.0 (plain_iteration t.1)) found) }
{
    match place_of_key(heap, &of, keys.as_slice(), next) {
        None => {
            drop(of);
            drop(keys);
            Ok(None)
        }
        Some(place) => {
            let key = keys.as_slice()[place].copy()?;
            let rest = Iteration::Keys {
                of,
                keys,
                next: place + 1,
            };
            Ok(Some((Value::Primitive(Primitive::Text(key)), rest)))
        }
    }
}

/// The place of the first key from one on that is still there.
fn place_of_key(heap: &Heap, of: &Value, keys: &[Str], from: usize) -> Option<usize>
    ensures within { IfSome result (λ place. place < length keys.now) }
    ensures key { MatchOption result (spec.next_key (heap_of heap.now) of.now (drop from keys.now) ≡ None)
        (λ place. spec.next_key (heap_of heap.now) of.now (drop from keys.now)
        ≡ Some (spec.taken (text (slice_index_or keys.now place [])) (spec.Keys of.now (drop (place + 1) keys.now)))) }
{
    for place in from..keys.len() {
        if has_key(heap, of, &keys[place]) {
            return Some(place);
        }
    }
    None
}

/// Whether a key is still there.
fn has_key(heap: &Heap, of: &Value, key: &Str) -> bool
    ensures { result ≡ spec.has_key (heap_of heap.now) of.now key.now }
{
    match of {
        Value::Object(object) => heap.has(*object, key),
        Value::Primitive(_) => true,
    }
}

/// The element of an array at an index.
fn take_element(
    heap: &Heap,
    array: Object,
    next: usize,
) -> Result<Option<(Value, Iteration)>, Memory>
    ensures { IfOk result (λ found. spec.next_of (heap_of heap.now) (spec.Elements array.index next)
        ≡ option_map (λ t. spec.taken t.0 (plain_iteration t.1)) found) }
{
    match heap.elements(array).get(next) {
        Some(element) => {
            let rest = Iteration::Elements {
                array,
                next: next + 1,
            };
            Ok(Some((element.copy()?, rest)))
        }
        None => Ok(None),
    }
}

/// The character of a text from a place on (22.1.5.1): a surrogate pair, or a unit.
fn take_character(
    alloc: Global,
    units: Str,
    next: usize,
) -> Result<Option<(Value, Iteration)>, Memory>
    ensures { IfOk result (λ found. spec.next_character (drop next units)
        ≡ option_map (λ t. spec.taken t.0 (plain_iteration t.1)) found) }
{
    let size = size_of_character(units.as_slice(), next);
    if size == 0 {
        drop(units);
        return Ok(None);
    }
    let character = copied(alloc, &units.as_slice()[next..next + size])?;
    let rest = Iteration::Characters {
        units,
        next: next + size,
    };
    Ok(Some((Value::Primitive(Primitive::Text(character)), rest)))
}

/// How many units the character from a place on has; 0 where there is none.
fn size_of_character(units: &[u16], from: usize) -> usize
    ensures size { result ≡ size_of (drop from units.now) }
    ensures within { (result ≡ 0 → ⊥) → from + result ≤ length units.now }
{
    match units.get(from) {
        None => 0,
        Some(first) => match units.get(from + 1) {
            None => 1,
            Some(second) => {
                if leads(*first) && trails(*second) {
                    2
                } else {
                    1
                }
            }
        },
    }
}

/// Whether a unit is the first of a surrogate pair.
fn leads(unit: u16) -> bool
    ensures { result ≡ host.leads unit }
{
    matches!(unit, 0xD800..=0xDBFF)
}

/// Whether a unit is the second of one.
fn trails(unit: u16) -> bool
    ensures { result ≡ host.trails unit }
{
    matches!(unit, 0xDC00..=0xDFFF)
}

/// Units as a text.
fn copied(alloc: Global, units: &[u16]) -> Result<Str, Memory>
    ensures { IfOk result (λ text. text ≡ units.now) }
{
    let mut copy = Vec::new(alloc);
    for unit in units {
        copy.push(*unit)?;
    }
    Str::from_vec(copy)
}
