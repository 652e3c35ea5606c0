// The coverage that a program leaves in its heap.

ghost use Rattle.std.specs.Prelude.{◌≡◌, ◌≢◌, List, None, Some, option_map, IfOk};
ghost use Rattle.std.specs.Option.{option_copied};
ghost use Rattle.items.specs.declared.data.Data.TheVariants as form;
ghost use Rattle.js_value.specs.Objects.{kind_of, elements_of};
ghost use Rattle.js_value.specs.Copying as copying;
ghost use Rattle.js_heap.specs.Heap.{heap_of};
ghost use Rattle.cov_object.specs.Data.{coverage_of_data};
ghost use Rattle.cov_object.specs.declared.fault.CoverageFault.TheVariants as coverage_fault;
ghost use Rattle.cov_object.specs.declared.file.FileCoverage.{FileCoverage};
ghost use Rattle.js_coverage.specs.Coverage as spec;
ghost use Rattle.js_coverage.specs.Coverage.{IsCoverage};

use cov_object::{CoverageFault, CoverageMap, from_data};
use items::{Data, DataProperty, Items, Memory, Text};
use js_heap::{Heap, ObjectKind};
use js_realm::object_at;
use js_value::{Key, Object, Place, Primitive, Str, Value};
use std::alloc::Global;

/// Why a machine tells no coverage.
#[derive(Clone, Copy, Debug, PartialEq, Eq)]
pub enum DataFault {
    /// What the program left is no coverage.
    NotCoverage,
    /// There was not enough memory.
    Memory,
}

impl From<Memory> for DataFault {
    ghost use Rattle.std.specs.Prelude.{◌≡◌};
    ghost use Rattle.js_coverage.specs.declared.coverage.DataFault.TheVariants as fault;

    ghost from_gives = { λ _ given. given ≡ fault.Memory };

    fn from(_error: Memory) -> DataFault {
        DataFault::Memory
    }
}

// The name `__coverage__`.
const COVERAGE: [u16; 12] = [95, 95, 99, 111, 118, 101, 114, 97, 103, 101, 95, 95];

// How deep objects may stand one inside another. What is deeper is no coverage.
const LEVELS: u64 = 127;

/// The coverage that a program left. It goes down no deeper than coverage can be, so a cycle ends it;
/// objects that stand in several places are gone through at each.
pub fn coverage_of(alloc: Global, heap: &Heap) -> Result<CoverageMap, DataFault>
    ensures coverage { IfOk result (λ map. IsCoverage (heap_of heap.now) map) }
    ensures none { result ≡ Err DataFault.NotCoverage → (files : List FileCoverage) → IsCoverage (heap_of heap.now) files → ⊥ }
{
    let left = coverage_data(alloc, heap, LEVELS)?;
    match left {
        Some(tree) => told_by(alloc, &tree),
        None => Err(DataFault::NotCoverage),
    }
}

// The coverage that a tree tells.
fn told_by(alloc: Global, tree: &Data) -> Result<CoverageMap, DataFault>
    ensures told { IfOk result (λ map. coverage_of_data tree.now ≡ Ok map) }
    ensures none { result ≡ Err DataFault.NotCoverage → (files : List FileCoverage) → coverage_of_data tree.now ≢ Ok files }
{
    match from_data(alloc, tree) {
        Ok(map) => Ok(map),
        Err(fault) => Err(fault_of(fault)),
    }
}

// What is no coverage by this fault, or want of memory.
fn fault_of(fault: CoverageFault) -> DataFault
    ensures { result ≡ DataFault.NotCoverage → fault ≢ coverage_fault.Memory }
{
    match fault {
        CoverageFault::Memory => DataFault::Memory,
        CoverageFault::TooLong => DataFault::NotCoverage,
        CoverageFault::BadJson => DataFault::NotCoverage,
        CoverageFault::BadMember { path, name } => {
            drop(path);
            drop(name);
            DataFault::NotCoverage
        }
        CoverageFault::Count { path, name } => {
            drop(path);
            drop(name);
            DataFault::NotCoverage
        }
    }
}

// The data of the object `__coverage__`, where so many objects may stand one inside another.
fn coverage_data(alloc: Global, heap: &Heap, levels: u64) -> Result<Option<Data>, Memory>
    ensures { IfOk result (λ tree. tree ≡ spec.coverage_within levels (heap_of heap.now)) }
{
    let name = Str::from_vec(Vec::from_slice(alloc, &COVERAGE)?)?;
    match heap.own(object_at(Place::Global), &name) {
        Some((value, _)) => value_data(alloc, heap, value, levels),
        None => Ok(Some(Data::Object(Items::new(alloc)))),
    }
}

// The data of a value, where so many objects may stand one inside another.
#[cycle(walk)]
fn value_data(
    alloc: Global,
    heap: &Heap,
    value: &Value,
    levels: u64,
) -> Result<Option<Data>, Memory>
    ensures { IfOk result (λ tree. tree ≡ spec.data_within levels (heap_of heap.now) value.now) }
{
    match value {
        Value::Primitive(primitive) => primitive_data(alloc, primitive),
        Value::Object(object) => object_within(alloc, heap, *object, levels),
    }
}

#[cycle(walk)]
fn object_within(
    alloc: Global,
    heap: &Heap,
    object: Object,
    levels: u64,
) -> Result<Option<Data>, Memory>
    ensures { IfOk result (λ tree. tree ≡ spec.object_within levels (heap_of heap.now) object.index) }
{
    if levels == 0 {
        return Ok(None);
    }
    object_data(alloc, heap, object, levels - 1)
}

// The data of an object, where so many may stand one inside another in it.
#[cycle(walk)]
fn object_data(
    alloc: Global,
    heap: &Heap,
    object: Object,
    levels: u64,
) -> Result<Option<Data>, Memory>
    ensures { IfOk result (λ tree. tree
        ≡ spec.object_data (spec.data_within levels (heap_of heap.now)) (heap_of heap.now) object.index (kind_of (heap_of heap.now) object.index)) }
{
    match heap.kind(object) {
        ObjectKind::Plain => own_data(alloc, heap, object, levels),
        ObjectKind::Array => array_data(alloc, heap, object, levels),
        ObjectKind::Error => own_data(alloc, heap, object, levels),
        ObjectKind::RegExp => own_data(alloc, heap, object, levels),
        ObjectKind::BuiltIn(_) => Ok(None),
        ObjectKind::Written(_, _) => Ok(None),
    }
}

#[cycle(walk)]
fn array_data(
    alloc: Global,
    heap: &Heap,
    object: Object,
    levels: u64,
) -> Result<Option<Data>, Memory>
    ensures { IfOk result (λ tree. tree
        ≡ option_map form.Array (spec.items_data (spec.data_within levels (heap_of heap.now)) (elements_of (heap_of heap.now) object.index))) }
{
    Ok(items_data(alloc, heap, heap.elements(object), levels)?.map(Data::Array))
}

#[cycle(walk)]
fn own_data(alloc: Global, heap: &Heap, object: Object, levels: u64) -> Result<Option<Data>, Memory>
    ensures { IfOk result (λ tree. tree ≡ spec.own_data (spec.data_within levels (heap_of heap.now)) (heap_of heap.now) object.index) }
{
    let keys = heap.keys(object)?;
    Ok(properties_data(alloc, heap, object, keys.as_slice(), levels)?.map(Data::Object))
}

// The data of these values, where each has some.
#[cycle(walk)]
fn items_data(
    alloc: Global,
    heap: &Heap,
    values: &[Value],
    levels: u64,
) -> Result<Option<Items<Data>>, Memory>
    ensures { IfOk result (λ items. items ≡ spec.items_data (spec.data_within levels (heap_of heap.now)) values.now) }
{
    let mut items = Items::new(alloc);
    for value in values {
        match value_data(alloc, heap, value, levels)? {
            Some(item) => items.push(item)?,
            None => return Ok(None),
        }
    }
    Ok(Some(items))
}

// The properties of these keys that are enumerable, where each has data.
#[cycle(walk)]
fn properties_data(
    alloc: Global,
    heap: &Heap,
    object: Object,
    keys: &[Key],
    levels: u64,
) -> Result<Option<Items<DataProperty>>, Memory>
    ensures { IfOk result (λ properties. properties
        ≡ spec.properties_data (spec.data_within levels (heap_of heap.now)) (heap_of heap.now) object.index keys.now) }
{
    let mut properties = Items::new(alloc);
    for key in keys {
        if let Some(value) = enumerable_value(heap, object, &key.key) {
            match property_data(alloc, heap, &key.key, value, levels)? {
                Some(property) => properties.push(property)?,
                None => return Ok(None),
            }
        }
    }
    Ok(Some(properties))
}

// A property of this key and value.
#[cycle(walk)]
fn property_data(
    alloc: Global,
    heap: &Heap,
    key: &Str,
    value: &Value,
    levels: u64,
) -> Result<Option<DataProperty>, Memory>
    ensures { IfOk result (λ property. property
        ≡ spec.property_of (spec.text_data key.now) (spec.data_within levels (heap_of heap.now) value.now)) }
{
    let Some(key) = text_data(alloc, key)? else {
        return Ok(None);
    };
    match value_data(alloc, heap, value, levels)? {
        Some(value) => Ok(Some(DataProperty { key, value })),
        None => Ok(None),
    }
}

// The value of an object's own property of this key, lent, where it is enumerable.
fn enumerable_value<'a>(heap: &'a Heap, object: Object, key: &Str) -> Option<&'a Value>
    ensures { option_copied result ≡ copying.enumerable_value (heap_of heap.now) object.index key.now }
{
    match heap.own(object, key) {
        Some((value, flags)) if flags.enumerable => Some(value),
        _ => None,
    }
}

// The data of a value that is no object.
fn primitive_data(alloc: Global, primitive: &Primitive) -> Result<Option<Data>, Memory>
    ensures { IfOk result (λ tree. tree ≡ spec.primitive_data primitive.now) }
{
    match primitive {
        Primitive::Undefined => Ok(None),
        Primitive::Null => Ok(Some(Data::Null)),
        Primitive::Boolean(truth) => Ok(Some(Data::Boolean(*truth))),
        Primitive::Number(number) => Ok(Some(Data::Number(*number))),
        Primitive::Text(text) => Ok(text_data(alloc, text)?.map(Data::String)),
    }
}

// A text in UTF-8, where no surrogate stands alone.
fn text_data(alloc: Global, text: &Str) -> Result<Option<Text>, Memory>
    ensures { IfOk result (λ text_in_bytes. text_in_bytes ≡ spec.text_data text.now) }
{
    match String::from_utf16(alloc, text.as_slice())? {
        Ok(text) => Ok(Some(Text::from_string(text))),
        Err(_) => Ok(None),
    }
}
