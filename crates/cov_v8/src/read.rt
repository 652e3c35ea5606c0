ghost use Rattle.std.specs.Prelude.{◌≡◌, ◌≢◌, ◌<◌, ◌^◌, [], length, option_map, option_and_then, Ok, Err, IfOk, IfErr, IfSome};
ghost use Rattle.std.specs.List.{All};
ghost use Rattle.serde_json.specs.View.{view, items_view};
ghost use Rattle.serde_json.specs.Find.{get, as_bool};
ghost use Rattle.cov_object.specs.Read.{text_in as text_in_member};
ghost use Rattle.cov_v8.specs.declared.fault.V8Fault.TheVariants.{Memory as OutOfMemory};
ghost use Rattle.cov_v8.specs.Form.{IsRange, IsFunction, IsScript, AreFunctions};
ghost use Rattle.cov_v8.specs.Read as spec;

use crate::fault::{V8Fault, bad_member};
use crate::v8::{V8, V8Function, V8Range, V8Script};
use cov_object::read_value;
use items::{Items, Text};
use serde_json::Value;
use std::alloc::Global;

// The whole number below 2^53 in a member.
fn whole_in(name: &str, value: &Value) -> Option<u64>
    ensures value { result ≡ spec.whole_in name.now (view value.now) }
    ensures below { IfSome result (λ n. n < 2 ^ 53) }
{
    let number = value.get(name)?.as_u64()?;
    if number < 1 << 53 { Some(number) } else { None }
}

fn range_of(alloc: Global, value: &Value) -> Result<V8Range, V8Fault>
    ensures ok { IfOk result (λ range. spec.range_of (view value.now) ≡ Ok range) }
    ensures formed { IfOk result IsRange }
    ensures err { IfErr result (λ fault. fault ≢ OutOfMemory → spec.range_of (view value.now) ≡ Err fault) }
{
    let Some(start) = whole_in("startOffset", value) else {
        return Err(bad_member(alloc, "startOffset"));
    };
    let Some(end) = whole_in("endOffset", value) else {
        return Err(bad_member(alloc, "endOffset"));
    };
    if start > end {
        return Err(bad_member(alloc, "endOffset"));
    }
    match whole_in("count", value) {
        Some(count) => Ok(V8Range { start, end, count }),
        None => Err(bad_member(alloc, "count")),
    }
}

fn each_range(alloc: Global, values: &[Value]) -> Result<Vec<V8Range>, V8Fault>
    ensures ok { IfOk result (λ ranges. spec.each spec.range_of (items_view values.now) ≡ Ok ranges.items) }
    ensures all { IfOk result (λ ranges. length ranges.items ≡ length values.now) }
    ensures formed { IfOk result (λ ranges. All IsRange ranges.items) }
    ensures err { IfErr result (λ fault. fault ≢ OutOfMemory → spec.each spec.range_of (items_view values.now) ≡ Err fault) }
{
    let mut ranges = Vec::new(alloc);
    for value in values {
        match range_of(alloc, value) {
            Ok(range) => ranges.push(range)?,
            Err(fault) => return Err(fault),
        }
    }
    Ok(ranges)
}

// The values of the list in a member.
fn list_in<'v>(name: &str, value: &'v Value) -> Option<&'v [Value]>
    ensures { option_map (λ values. items_view values.now) result ≡ spec.list_in name.now (view value.now) }
{
    match value.get(name) {
        Some(list) => match list.as_array() {
            Some(values) => Some(values.as_slice()),
            None => None,
        },
        None => None,
    }
}

// The text in a member.
fn text_in<'v>(name: &str, value: &'v Value) -> Option<&'v str>
    ensures { option_map (λ text. text.now) result ≡ text_in_member name.now (view value.now) }
{
    match value.get(name) {
        Some(text) => text.as_str(),
        None => None,
    }
}

// The truth value in a member.
fn truth_in(name: &str, value: &Value) -> Option<bool>
    ensures { result ≡ option_and_then as_bool (get name.now (view value.now)) }
{
    match value.get(name) {
        Some(truth) => truth.as_bool(),
        None => None,
    }
}

// The values of the list in a member, where it has any.
fn some_in<'v>(name: &str, value: &'v Value) -> Option<&'v [Value]>
    ensures value { option_map (λ values. items_view values.now) result ≡ option_and_then spec.nonempty (spec.list_in name.now (view value.now)) }
    ensures some { IfSome result (λ values. 0 < length values.now) }
{
    match list_in(name, value) {
        Some(values) => if values.is_empty() {
            None
        } else {
            Some(values)
        },
        None => None,
    }
}

fn ranges_of(alloc: Global, value: &Value) -> Result<Vec<V8Range>, V8Fault>
    ensures ok { IfOk result (λ ranges. spec.ranges_of (view value.now) ≡ Ok ranges.items) }
    ensures some { IfOk result (λ ranges. 0 < length ranges.items) }
    ensures formed { IfOk result (λ ranges. All IsRange ranges.items) }
    ensures err { IfErr result (λ fault. fault ≢ OutOfMemory → spec.ranges_of (view value.now) ≡ Err fault) }
{
    match some_in("ranges", value) {
        Some(values) => each_range(alloc, values),
        None => Err(bad_member(alloc, "ranges")),
    }
}

fn function_of(alloc: Global, value: &Value) -> Result<V8Function, V8Fault>
    ensures ok { IfOk result (λ function. spec.function_of (view value.now) ≡ Ok function) }
    ensures formed { IfOk result IsFunction }
    ensures err { IfErr result (λ fault. fault ≢ OutOfMemory → spec.function_of (view value.now) ≡ Err fault) }
{
    let Some(name) = text_in("functionName", value) else {
        return Err(bad_member(alloc, "functionName"));
    };
    let Some(is_block) = truth_in("isBlockCoverage", value) else {
        return Err(bad_member(alloc, "isBlockCoverage"));
    };
    match ranges_of(alloc, value) {
        Ok(ranges) => Ok(V8Function {
            name: Text::from_str(alloc, name)?,
            is_block,
            ranges: Items::from_vec(ranges),
        }),
        Err(fault) => Err(fault),
    }
}

fn each_function(alloc: Global, values: &[Value]) -> Result<Vec<V8Function>, V8Fault>
    ensures ok { IfOk result (λ functions. spec.each spec.function_of (items_view values.now) ≡ Ok functions.items) }
    ensures formed { IfOk result (λ functions. AreFunctions functions.items) }
    ensures err { IfErr result (λ fault. fault ≢ OutOfMemory → spec.each spec.function_of (items_view values.now) ≡ Err fault) }
{
    let mut functions = Vec::new(alloc);
    for value in values {
        match function_of(alloc, value) {
            Ok(function) => functions.push(function)?,
            Err(fault) => return Err(fault),
        }
    }
    Ok(functions)
}

fn functions_of(alloc: Global, value: &Value) -> Result<Vec<V8Function>, V8Fault>
    ensures ok { IfOk result (λ functions. spec.functions_of (view value.now) ≡ Ok functions.items) }
    ensures formed { IfOk result (λ functions. AreFunctions functions.items) }
    ensures err { IfErr result (λ fault. fault ≢ OutOfMemory → spec.functions_of (view value.now) ≡ Err fault) }
{
    match list_in("functions", value) {
        Some(values) => each_function(alloc, values),
        None => Err(bad_member(alloc, "functions")),
    }
}

fn script_of(alloc: Global, value: &Value) -> Result<V8Script, V8Fault>
    ensures ok { IfOk result (λ script. spec.script_of (view value.now) ≡ Ok script) }
    ensures formed { IfOk result IsScript }
    ensures err { IfErr result (λ fault. fault ≢ OutOfMemory → spec.script_of (view value.now) ≡ Err fault) }
{
    let Some(url) = text_in("url", value) else {
        return Err(bad_member(alloc, "url"));
    };
    match functions_of(alloc, value) {
        Ok(functions) => Ok(V8Script {
            url: Text::from_str(alloc, url)?,
            functions: Items::from_vec(functions),
        }),
        Err(fault) => Err(fault),
    }
}

fn each_script(alloc: Global, values: &[Value]) -> Result<Vec<V8Script>, V8Fault>
    ensures ok { IfOk result (λ scripts. spec.each spec.script_of (items_view values.now) ≡ Ok scripts.items) }
    ensures formed { IfOk result (λ scripts. All IsScript scripts.items) }
    ensures err { IfErr result (λ fault. fault ≢ OutOfMemory → spec.each spec.script_of (items_view values.now) ≡ Err fault) }
{
    let mut scripts = Vec::new(alloc);
    for value in values {
        match script_of(alloc, value) {
            Ok(script) => scripts.push(script)?,
            Err(fault) => return Err(fault),
        }
    }
    Ok(scripts)
}

fn v8_of(alloc: Global, value: &Value) -> Result<V8, V8Fault>
    ensures ok { IfOk result (λ v8. spec.v8_of (view value.now) ≡ Ok v8) }
    ensures formed { IfOk result (λ v8. All IsScript v8.scripts) }
    ensures err { IfErr result (λ fault. fault ≢ OutOfMemory → spec.v8_of (view value.now) ≡ Err fault) }
{
    let Some(values) = list_in("result", value) else {
        return Err(bad_member(alloc, "result"));
    };
    match each_script(alloc, values) {
        Ok(scripts) => Ok(V8 {
            scripts: Items::from_vec(scripts),
        }),
        Err(fault) => Err(fault),
    }
}

/// The coverage that bytes tell as V8's JSON. `TooLong` comes exactly over 16 MiB, before all else; of
/// the other faults the first one comes.
pub fn read_v8(alloc: Global, bytes: &[u8]) -> Result<V8, V8Fault>
    ensures ok { IfOk result (λ v8. spec.v8_in bytes.now ≡ Ok v8) }
    ensures formed { IfOk result (λ v8. All IsScript v8.scripts) }
    ensures err { IfErr result (λ fault. fault ≢ OutOfMemory → spec.v8_in bytes.now ≡ Err fault) }
{
    if bytes.len() > 1 << 24 {
        return Err(V8Fault::TooLong);
    }
    match read_value(alloc, bytes)? {
        Some(value) => v8_of(alloc, &value),
        None => Err(V8Fault::BadJson),
    }
}
