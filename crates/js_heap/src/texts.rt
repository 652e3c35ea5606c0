// What a text has of its own where it is looked into (ECMA-262, 10.4.3).

ghost use Rattle.std.specs.Prelude.{◌≡◌, [], ◌∷◌, IfOk, option_map, slice_get};
ghost use Rattle.js_value.specs.Texts as spec;
ghost use Rattle.js_value.specs.declared.value.Value.TheVariants as value;
ghost use Rattle.js_value.specs.declared.value.Primitive.TheVariants as primitive;
ghost use Rattle.js_heap.specs.Object.{property_with, plain_delete};

use crate::Delete;
use crate::elements::number_of;
use crate::object::{Flags, is_length};
use items::Memory;
use js_value::{Primitive, Str, Value, index_of};
use std::alloc::Global;

/// The flags of a text's unit.
const UNIT: Flags = Flags {
    enumerable: true,
    writable: false,
};

/// The flags of a text's length.
const LENGTH_OF_TEXT: Flags = Flags {
    enumerable: false,
    writable: false,
};

/// The text's own property of this key (10.4.3.5).
pub(crate) fn own_of_text(
    alloc: Global,
    text: &Str,
    key: &Str,
) -> Result<Option<(Value, Flags)>, Memory>
    ensures { IfOk result (λ own. option_map (λ found. property_with key.now found.0 found.1) own
        ≡ spec.own_of_text text.now key.now) }
{
    match index_of(key.as_slice()) {
        Some(index) => unit_of(alloc, text, index, key),
        None if is_length(key) => Ok(Some((number_of(text.len())?, LENGTH_OF_TEXT))),
        None => Ok(None),
    }
}

/// The text's unit at this index, which is the key.
fn unit_of(
    alloc: Global,
    text: &Str,
    index: u32,
    key: &Str,
) -> Result<Option<(Value, Flags)>, Memory>
    ensures { IfOk result (λ own. option_map (λ found. property_with key.now found.0 found.1) own
        ≡ option_map (spec.unit_property key.now) (slice_get text.now index)) }
{
    match text.as_slice().get(index as usize) {
        Some(unit) => Ok(Some((text_of_unit(alloc, *unit)?, UNIT))),
        None => Ok(None),
    }
}

/// Deletes a text's own property of this key (10.1.10): what it has stays. It takes no memory.
pub fn delete_of_text(text: &Str, key: &Str) -> Delete
    ensures { plain_delete result ≡ spec.delete_of_text text.now key.now }
{
    let has = match index_of(key.as_slice()) {
        Some(index) => (index as usize) < text.len(),
        None => is_length(key),
    };
    if has { Delete::Frozen } else { Delete::Done }
}

/// A unit as a text.
fn text_of_unit(alloc: Global, unit: u16) -> Result<Value, Memory>
    ensures { IfOk result (λ made. made ≡ value.Primitive (primitive.Text (unit ∷ []))) }
{
    let units = Vec::from_slice(alloc, &[unit])?;
    Ok(Value::Primitive(Primitive::Text(Str::from_vec(units)?)))
}
