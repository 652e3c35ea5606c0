// The coverage that a tree of data tells.
ghost use Rattle.std.specs.Prelude.{◌≡◌, ◌≢◌, ◌+◌, ◌≤◌, map, nat_le, Ok, Err, IfOk, IfErr};
ghost use Rattle.serde_json.specs.Data.{depth as depth_in, items_depth, members_depth};
ghost use Rattle.serde_json.specs.View.{view, items_view, members_view, items_of};
ghost use Rattle.cov_object.specs.Data as spec;
ghost use Rattle.cov_object.specs.Data.{value_of as json_value_of, member_of, depth_of, property_depth, deepest};
ghost use Rattle.cov_object.specs.Json.{by_key};
ghost use Rattle.cov_object.specs.SourceMapText.{most_depth};
ghost use Rattle.cov_object.specs.declared.fault.CoverageFault.TheVariants.{Memory as OutOfMemory};
ghost use Rattle.cov_object.specs.private.ByFile.{answers, answered};

use crate::by_file::{all_files, answer_of};
use crate::fault::{CoverageFault, bad_member};
use crate::file::FileCoverage;
use crate::map::CoverageMap;
use items::{Data, DataProperty, Memory};
use serde_json::{Map, Number, Value};
use std::alloc::Global;
use std::collections::BTreeMap;

// The greatest depth of the whole.
const WHOLE_DEPTH: u64 = 127;

/// The coverage map that a tree of data tells: the same as `read_json` gives for its JSON, however long
/// that is. `BadJson` comes exactly where it nests more than 127 deep, before all else; the other
/// faults come as `read_json` has them, and `TooLong` never. Only want of memory may come besides.
pub fn from_data(alloc: Global, tree: &Data) -> Result<CoverageMap, CoverageFault>
    ensures ok { IfOk result (λ map. spec.coverage_of_data tree.now ≡ Ok map) }
    ensures err { IfErr result (λ fault. fault ≢ OutOfMemory → spec.coverage_of_data tree.now ≡ Err fault) }
{
    if !nests_within(tree, WHOLE_DEPTH) {
        return Err(CoverageFault::BadJson);
    }
    match tree {
        Data::Null => Err(bad_member(alloc, "", "file")),
        Data::Boolean(_) => Err(bad_member(alloc, "", "file")),
        Data::Number(_) => Err(bad_member(alloc, "", "file")),
        Data::String(_) => Err(bad_member(alloc, "", "file")),
        Data::Array(_) => Err(bad_member(alloc, "", "file")),
        Data::Object(properties) => {
            let answers = answers_in(alloc, properties.as_slice())?;
            all_files(alloc, answers)
        },
    }
}

// What each property tells, under its key; of equal keys the last one counts.
fn answers_in(
    alloc: Global,
    properties: &[DataProperty],
) -> Result<BTreeMap<String, Result<FileCoverage, CoverageFault>>, Memory>
    requires { deepest (map property_depth properties.now) ≤ most_depth + 1 }
    ensures { IfOk result (λ found. answered found.entries ≡ answers (by_key (map member_of properties.now))) }
{
    let mut found = BTreeMap::new(alloc);
    for property in properties {
        let name = property.key.as_str();
        let value = value_of(alloc, &property.value)?;
        let answer = answer_of(alloc, name, &value)?;
        let key = String::from_str(alloc, name)?;
        drop(found.insert(key, answer)?);
    }
    Ok(found)
}

// Whether a tree nests no deeper than this.
#[cycle(nests)]
#[tactic(auto, using(crate::proofs::DataForms::data_rules))]
fn nests_within(tree: &Data, depth: u64) -> bool
    ensures { result ≡ nat_le (depth_of tree.now) depth }
{
    match tree {
        Data::Null => true,
        Data::Boolean(_) => true,
        Data::Number(_) => true,
        Data::String(_) => true,
        Data::Array(items) => depth > 0 && items_nest_within(items.as_slice(), depth - 1),
        Data::Object(properties) => depth > 0
            && properties_nest_within(properties.as_slice(), depth - 1),
    }
}

#[cycle(nests)]
#[tactic(auto, using(crate::proofs::DataForms::data_rules))]
fn items_nest_within(items: &[Data], depth: u64) -> bool
    ensures { result ≡ nat_le (deepest (map depth_of items.now)) depth }
{
    for item in items {
        if !nests_within(item, depth) {
            return false;
        }
    }
    true
}

#[cycle(nests)]
#[tactic(auto, using(crate::proofs::DataForms::data_rules))]
fn properties_nest_within(properties: &[DataProperty], depth: u64) -> bool
    ensures { result ≡ nat_le (deepest (map property_depth properties.now)) depth }
{
    for property in properties {
        if !nests_within(&property.value, depth) {
            return false;
        }
    }
    true
}

// The JSON value that a tree is.
#[cycle(value)]
#[tactic(auto, using(crate::proofs::DataForms::data_rules))]
fn value_of(alloc: Global, tree: &Data) -> Result<Value, Memory>
    ensures value { IfOk result (λ value. view value ≡ json_value_of tree.now) }
    ensures nests { IfOk result (λ value. depth_in (view value) ≤ depth_of tree.now) }
{
    match tree {
        Data::Null => Ok(Value::Null),
        Data::Boolean(truth) => Ok(Value::Bool(*truth)),
        Data::Number(n) => Ok(Value::Number(Number::from(*n))),
        Data::String(text) => Ok(Value::String(String::from_str(alloc, text.as_str())?)),
        Data::Array(items) => Ok(Value::Array(values_of(alloc, items.as_slice())?)),
        Data::Object(properties) => Ok(Value::Object(members_of(alloc, properties.as_slice())?)),
    }
}

#[cycle(value)]
#[tactic(auto, using(crate::proofs::DataForms::data_rules))]
fn values_of(alloc: Global, items: &[Data]) -> Result<Vec<Value>, Memory>
    ensures values { IfOk result (λ values. items_view values.items ≡ items_of (map json_value_of items.now)) }
    ensures nest { IfOk result (λ values. items_depth (items_view values.items) ≤ deepest (map depth_of items.now)) }
{
    let mut values = Vec::new(alloc);
    for item in items {
        values.push(value_of(alloc, item)?)?;
    }
    Ok(values)
}

#[cycle(value)]
#[tactic(auto, using(crate::proofs::DataForms::data_rules))]
fn members_of(alloc: Global, properties: &[DataProperty]) -> Result<Map<String, Value>, Memory>
    ensures members { IfOk result (λ members. members_view members.entries ≡ by_key (map member_of properties.now)) }
    ensures nest { IfOk result (λ members. members_depth (members_view members.entries) ≤ deepest (map property_depth properties.now)) }
{
    let mut members = Map::new(alloc);
    for property in properties {
        let key = String::from_str(alloc, property.key.as_str())?;
        let value = value_of(alloc, &property.value)?;
        drop(members.insert(key, value)?);
    }
    Ok(members)
}
