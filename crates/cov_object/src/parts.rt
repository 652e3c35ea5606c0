ghost use Rattle.std.specs.Prelude.{◌≡◌, ◌+◌, ◌≤◌, codes, option_map, option_and_then, IfOk};
ghost use Rattle.serde_json.specs.Data.{depth};
ghost use Rattle.serde_json.specs.Find.{get, as_str};
ghost use Rattle.serde_json.specs.View.{view};
ghost use Rattle.cov_object.specs.Read.{source_map_text_of};
ghost use Rattle.cov_object.specs.SourceMapText.{most_depth};
ghost use Rattle.cov_object.specs.private.ByMember as spec;

use crate::branch::BranchCoverage;
use crate::entries::{Entries, entries_in};
use crate::entry::Entry;
use crate::file::{FunctionCoverage, StatementCoverage};
use crate::number::Count;
use crate::source_map_text::SourceMapText;
use items::{Items, Memory, Text};
use serde_json::Value;
use std::alloc::Global;

// What is kept of the members that a file is read from.
#[derive(Drop)]
pub(crate) struct FileParts {
    // Whether the path is the file's key.
    pub has_path: bool,
    // The statements, functions and branches.
    pub maps: MapParts,
    // The hash, where there is one: none again where it is no text.
    pub hash: Option<Option<Text>>,
    // The source map, where there is one: none again where it isn't of its form.
    pub source_map: Option<Option<SourceMapText>>,
}

// What is kept of the entries of a file's maps, and of their counts.
#[derive(Drop)]
pub(crate) struct MapParts {
    pub statement_map: Entries<Option<StatementCoverage>>,
    pub statement_counts: Entries<Option<Count>>,
    pub function_map: Entries<Option<FunctionCoverage>>,
    pub function_counts: Entries<Option<Count>>,
    pub branch_map: Entries<Option<BranchCoverage>>,
    pub branch_counts: Entries<Option<Items<Option<Count>>>>,
}

impl FileParts {
    // What is kept of no members.
    pub fn new() -> FileParts
        ensures { result ≡ spec.no_parts }
    {
        FileParts {
            has_path: false,
            maps: MapParts::new(),
            hash: None,
            source_map: None,
        }
    }
}

impl MapParts {
    // What is kept of no entries.
    fn new() -> MapParts
        ensures { result ≡ spec.no_maps }
    {
        MapParts {
            statement_map: Entries::none(),
            statement_counts: Entries::none(),
            function_map: Entries::none(),
            function_counts: Entries::none(),
            branch_map: Entries::none(),
            branch_counts: Entries::none(),
        }
    }
}

// What is kept of a file's value.
pub(crate) fn parts_in(alloc: Global, key: &str, file: &Value) -> Result<FileParts, Memory>
    requires { depth (view file.now) ≤ most_depth + 1 }
    ensures { IfOk result (λ parts. parts ≡ spec.parts_of key.now (view file.now)) }
{
    Ok(FileParts {
        has_path: has_path(key, file),
        maps: maps_in(alloc, file)?,
        hash: hash_in(alloc, file)?,
        source_map: source_map_in(alloc, file)?,
    })
}

// What is kept of a file's maps and their counts.
fn maps_in(alloc: Global, file: &Value) -> Result<MapParts, Memory>
    ensures { IfOk result (λ maps. maps ≡ spec.maps_of (view file.now)) }
{
    Ok(MapParts {
        statement_map: entries_at(alloc, "statementMap", file)?,
        statement_counts: entries_at(alloc, "s", file)?,
        function_map: entries_at(alloc, "fnMap", file)?,
        function_counts: entries_at(alloc, "f", file)?,
        branch_map: entries_at(alloc, "branchMap", file)?,
        branch_counts: entries_at(alloc, "b", file)?,
    })
}

// What is kept of the entries of a file's member.
fn entries_at<E: Entry>(alloc: Global, name: &str, file: &Value) -> Result<Entries<E>, Memory>
    ensures { IfOk result (λ entries. entries ≡ option_and_then (spec.value_kept E.tells) (get name.now (view file.now))) }
{
    let Some(value) = file.get(name) else {
        return Ok(Entries::none());
    };
    let Some(members) = value.as_object() else {
        return Ok(Entries::none());
    };
    entries_in(alloc, members)
}

// Whether a file's path is its key.
fn has_path(key: &str, file: &Value) -> bool
    ensures { result ≡ spec.is_key key.now (option_and_then as_str (get (codes "path") (view file.now))) }
{
    match file.get("path") {
        Some(path) => is_key(key, path),
        None => false,
    }
}

// Whether a value is the text of a key.
pub(crate) fn is_key(key: &str, value: &Value) -> bool
    ensures { result ≡ spec.is_key key.now (as_str (view value.now)) }
{
    match value.as_str() {
        Some(text) => text == key,
        None => false,
    }
}

// The text that a value is.
pub(crate) fn text_of(alloc: Global, value: &Value) -> Result<Option<Text>, Memory>
    ensures { IfOk result (λ text. text ≡ as_str (view value.now)) }
{
    match value.as_str() {
        Some(text) => Ok(Some(Text::from_str(alloc, text)?)),
        None => Ok(None),
    }
}

// A file's hash, where there is one.
fn hash_in(alloc: Global, file: &Value) -> Result<Option<Option<Text>>, Memory>
    ensures { IfOk result (λ hash. hash ≡ option_map as_str (get (codes "hash") (view file.now))) }
{
    match file.get("hash") {
        Some(hash) => Ok(Some(text_of(alloc, hash)?)),
        None => Ok(None),
    }
}

// A file's source map, where there is one.
fn source_map_in(alloc: Global, file: &Value) -> Result<Option<Option<SourceMapText>>, Memory>
    requires { depth (view file.now) ≤ most_depth + 1 }
    ensures { IfOk result (λ map. map ≡ option_map source_map_text_of (get (codes "inputSourceMap") (view file.now))) }
{
    match file.get("inputSourceMap") {
        Some(map) => Ok(Some(SourceMapText::from_value(alloc, map)?)),
        None => Ok(None),
    }
}
