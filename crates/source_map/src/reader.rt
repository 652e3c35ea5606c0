ghost use Rattle.std.specs.Prelude.{◌≡◌, ◌≢◌, ◌++◌, [], map, option_map, Ok, Err, Some, None, IfOk, IfErr};
ghost use Rattle.serde_json.specs.View.{view, items_view};
ghost use Rattle.serde_json.specs.Find.{as_str};
ghost use Rattle.source_map.specs.declared.fault.MapFault.TheVariants.{Memory as OutOfMemory, BadMember as bad_member_of};
ghost use Rattle.source_map.specs.Read as spec;
ghost use Rattle.source_map.specs.Mappings.{segments_of};

use crate::fault::MapFault;
use crate::line::read_lines;
use crate::place::{Parts, Segment};
use crate::sort::in_order;
use cov_object::read_value;
use items::{Items, Memory, Text};
use serde_json::Value;
use std::alloc::Global;

// The fault of a member, or want of memory.
fn bad_member(alloc: Global, name: &str) -> MapFault
    ensures { result ≢ OutOfMemory → result ≡ bad_member_of name.now }
{
    match Text::from_str(alloc, name) {
        Ok(name) => MapFault::BadMember { name },
        Err(_) => MapFault::Memory,
    }
}

// There are no sections.
fn no_sections(alloc: Global, value: &Value) -> Result<(), MapFault>
    ensures ok { IfOk result (λ found. spec.no_sections (view value.now) ≡ Ok tt) }
    ensures err { IfErr result (λ fault. fault ≢ OutOfMemory → spec.no_sections (view value.now) ≡ Err fault) }
{
    match value.get("sections") {
        None => Ok(()),
        Some(_) => Err(bad_member(alloc, "sections")),
    }
}

// The version is 3.
fn version(alloc: Global, value: &Value) -> Result<(), MapFault>
    ensures ok { IfOk result (λ found. spec.version (view value.now) ≡ Ok tt) }
    ensures err { IfErr result (λ fault. fault ≢ OutOfMemory → spec.version (view value.now) ≡ Err fault) }
{
    let Some(version) = value.get("version") else {
        return Err(bad_member(alloc, "version"));
    };
    match version.as_u64() {
        Some(number) => if number == 3 {
            Ok(())
        } else {
            Err(bad_member(alloc, "version"))
        },
        None => Err(bad_member(alloc, "version")),
    }
}

// The texts of a list, and where it has null.
fn each_source(alloc: Global, values: &[Value]) -> Result<Option<Vec<Option<Text>>>, Memory>
    ensures { IfOk result (λ texts. option_map (λ texts. texts.items) texts ≡ spec.each spec.text_or_null (items_view values.now)) }
{
    let mut texts = Vec::new(alloc);
    for value in values {
        if value.is_null() {
            texts.push(None)?;
        } else {
            match value.as_str() {
                Some(text) => texts.push(Some(Text::from_str(alloc, text)?))?,
                None => return Ok(None),
            }
        }
    }
    Ok(Some(texts))
}

// The texts of a list.
fn each_name(alloc: Global, values: &[Value]) -> Result<Option<Vec<Text>>, Memory>
    ensures { IfOk result (λ texts. option_map (λ texts. texts.items) texts ≡ spec.each as_str (items_view values.now)) }
{
    let mut texts = Vec::new(alloc);
    for value in values {
        match value.as_str() {
            Some(text) => texts.push(Text::from_str(alloc, text)?)?,
            None => return Ok(None),
        }
    }
    Ok(Some(texts))
}

fn sources(alloc: Global, value: &Value) -> Result<Vec<Option<Text>>, MapFault>
    ensures ok { IfOk result (λ texts. spec.sources (view value.now) ≡ Ok texts.items) }
    ensures err { IfErr result (λ fault. fault ≢ OutOfMemory → spec.sources (view value.now) ≡ Err fault) }
{
    let Some(list) = value.get("sources") else {
        return Err(bad_member(alloc, "sources"));
    };
    let Some(values) = list.as_array() else {
        return Err(bad_member(alloc, "sources"));
    };
    match each_source(alloc, values.as_slice())? {
        Some(texts) => Ok(texts),
        None => Err(bad_member(alloc, "sources")),
    }
}

fn names(alloc: Global, value: &Value) -> Result<Vec<Text>, MapFault>
    ensures ok { IfOk result (λ texts. spec.names (view value.now) ≡ Ok texts.items) }
    ensures err { IfErr result (λ fault. fault ≢ OutOfMemory → spec.names (view value.now) ≡ Err fault) }
{
    let Some(list) = value.get("names") else {
        return Ok(Vec::new(alloc));
    };
    let Some(values) = list.as_array() else {
        return Err(bad_member(alloc, "names"));
    };
    match each_name(alloc, values.as_slice())? {
        Some(texts) => Ok(texts),
        None => Err(bad_member(alloc, "names")),
    }
}

fn mappings(alloc: Global, value: &Value) -> Result<&str, MapFault>
    ensures ok { IfOk result (λ text. spec.mappings (view value.now) ≡ Ok text.now) }
    ensures err { IfErr result (λ fault. fault ≢ OutOfMemory → spec.mappings (view value.now) ≡ Err fault) }
{
    let Some(text) = value.get("mappings") else {
        return Err(bad_member(alloc, "mappings"));
    };
    match text.as_str() {
        Some(text) => Ok(text),
        None => Err(bad_member(alloc, "mappings")),
    }
}

fn root(alloc: Global, value: &Value) -> Result<&str, MapFault>
    ensures ok { IfOk result (λ text. spec.root (view value.now) ≡ Ok text.now) }
    ensures err { IfErr result (λ fault. fault ≢ OutOfMemory → spec.root (view value.now) ≡ Err fault) }
{
    let Some(root) = value.get("sourceRoot") else {
        return Ok("");
    };
    if root.is_null() {
        return Ok("");
    }
    match root.as_str() {
        Some(text) => Ok(text),
        None => Err(bad_member(alloc, "sourceRoot")),
    }
}

// A text after the root, with a `/` between where the root isn't empty and has none.
fn rooted(alloc: Global, root: &str, text: &str) -> Result<Text, Memory>
    ensures { IfOk result (λ whole. whole ≡ spec.prefix root.now ++ text.now) }
{
    let slash = slash_after(root);
    Ok(Text::from_string(format!(in alloc; "{root}{slash}{text}")?))
}

fn slash_after(root: &str) -> &'static str
    ensures { root.now ++ result.now ≡ spec.prefix root.now }
{
    if root.is_empty() {
        return "";
    }
    if root.ends_with("/") { "" } else { "/" }
}

// All sources after the root.
fn under(alloc: Global, root: &str, sources: &[Option<Text>]) -> Result<Items<Option<Text>>, Memory>
    ensures { IfOk result (λ all. all ≡ spec.under root.now sources.now) }
{
    let mut all = Vec::new(alloc);
    for source in sources {
        let text = match source {
            None => None,
            Some(text) => Some(rooted(alloc, root, text.as_str())?),
        };
        all.push(text)?;
    }
    Ok(Items::from_vec(all))
}

// The segments of some mappings, in order.
fn segments(
    alloc: Global,
    sources: u64,
    names: u64,
    mappings: &str,
) -> Result<Items<Segment>, MapFault>
    ensures ok { IfOk result (λ all. segments_of sources names mappings.now ≡ Ok all) }
    ensures err { IfErr result (λ fault. fault ≢ OutOfMemory → spec.with_segments [] [] (segments_of sources names mappings.now) ≡ Err fault) }
{
    match read_lines(alloc, sources, names, mappings) {
        Ok(all) => Ok(Items::from_vec(in_order(all)?)),
        Err(fault) => Err(fault),
    }
}

// The map of a JSON value.
fn map_of(alloc: Global, value: &Value) -> Result<Parts, MapFault>
    ensures ok { IfOk result (λ map. spec.map_of (view value.now) ≡ Ok map) }
    ensures err { IfErr result (λ fault. fault ≢ OutOfMemory → spec.map_of (view value.now) ≡ Err fault) }
{
    no_sections(alloc, value)?;
    version(alloc, value)?;
    let found = sources(alloc, value)?;
    let names = names(alloc, value)?;
    let text = mappings(alloc, value)?;
    let root = root(alloc, value)?;
    let segments = segments(alloc, found.len() as u64, names.len() as u64, text)?;
    Ok(Parts {
        sources: under(alloc, root, &found)?,
        names: Items::from_vec(names),
        segments,
    })
}

/// The source map that so many bytes at most tell as JSON. `TooLong` comes exactly over `most`, before
/// all else; of the other faults the first one comes.
pub(crate) fn read(alloc: Global, bytes: &[u8], most: u64) -> Result<Parts, MapFault>
    ensures ok { IfOk result (λ map. spec.source_map_of most bytes.now ≡ Ok map) }
    ensures err { IfErr result (λ fault. fault ≢ OutOfMemory → spec.source_map_of most bytes.now ≡ Err fault) }
{
    if bytes.len() as u64 > most {
        return Err(MapFault::TooLong);
    }
    match read_value(alloc, bytes)? {
        Some(value) => map_of(alloc, &value),
        None => Err(MapFault::BadJson),
    }
}
