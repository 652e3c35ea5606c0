// The members of a file, one after another: no more than one entry's JSON is held at a time.
ghost use Rattle.std.specs.Prelude.{◌≡◌, ◌+◌, ◌-◌, ◌<◌, length, Some, Err, IfOk, OnOk};
ghost use Rattle.json.specs.Json.{value as tokens_value, members, parse_map};
ghost use Rattle.serde_json.specs.Data.{no_members, object};
ghost use Rattle.serde_json.specs.Find.{as_str};
ghost use Rattle.serde_json.specs.Read.{of_json, of_members, converted};
ghost use Rattle.cov_object.specs.Read.{source_map_text_of};
ghost use Rattle.cov_object.specs.SourceMapText.{most_depth};
ghost use Rattle.cov_object.specs.declared.json_value.Unread.TheVariants.{NoJson};
ghost use Rattle.cov_object.specs.private.ByMember as spec;

use crate::entries::Entries;
use crate::entry::Entry;
use crate::json_value::{Unread, next_value};
use crate::parts::{FileParts, MapParts, is_key, text_of};
use crate::skip::{enter_object, skip_value};
use crate::source_map_text::SourceMapText;
use items::Text;
use json::Reader;
use std::alloc::Global;

// The greatest depth of a file's value: one less than that of the whole.
const FILE_DEPTH: usize = 126;

// The greatest depth of a member of a file.
const MEMBER_DEPTH: usize = 125;

// What is kept of the value that comes next, which is a file under a key.
pub(crate) fn next_file(
    alloc: Global,
    reader: &mut Reader<'_>,
    key: &str,
) -> Result<FileParts, Unread>
    ensures ok { IfOk result (λ parts. parse_map (spec.parts_of key.now) (converted of_json (tokens_value (most_depth + 1) reader.old))
        ≡ Some (parts, reader.new)) }
    ensures shorter { OnOk result (length reader.new < length reader.old) }
    ensures err { result ≡ Err NoJson → converted of_json (tokens_value (most_depth + 1) reader.old) ≡ None }
{
    let entered = enter_object(reader, FILE_DEPTH)?;
    if entered {
        next_parts(alloc, reader, key)
    } else {
        Ok(FileParts::new())
    }
}

// What is kept of the members up to the brace that closes the file's object.
fn next_parts(alloc: Global, reader: &mut Reader<'_>, key: &str) -> Result<FileParts, Unread>
    ensures ok { IfOk result (λ parts. parse_map (λ ms. spec.parts_of key.now (object ms))
        (converted (λ ms. of_members ms no_members) (members (tokens_value most_depth) (length reader.old) reader.old))
        ≡ Some (parts, reader.new)) }
    ensures shorter { OnOk result (length reader.new < length reader.old) }
    ensures err { result ≡ Err NoJson
        → converted (λ ms. of_members ms no_members) (members (tokens_value most_depth) (length reader.old) reader.old) ≡ None }
{
    let mut parts = FileParts::new();
    'members: while let Some(name) = reader.next_key()? {
        next_member(alloc, reader, key, name, &mut parts)?;
    }
    Ok(parts)
}

// Keeps what the value tells that comes next, a file's member of this name.
fn next_member(
    alloc: Global,
    reader: &mut Reader<'_>,
    key: &str,
    name: &str,
    parts: &mut FileParts,
) -> Result<(), Unread>
    ensures ok { OnOk result (parse_map (λ value. spec.with_member key.now name.now value parts.old) (converted of_json (tokens_value most_depth reader.old))
        ≡ Some (parts.new, reader.new)) }
    ensures shorter { OnOk result (length reader.new < length reader.old) }
    ensures err { result ≡ Err NoJson → converted of_json (tokens_value most_depth reader.old) ≡ None }
{
    match name {
        "path" => {
            let has_path = next_path(alloc, reader, key)?;
            parts.has_path = has_path;
            Ok(())
        }
        "hash" => {
            let hash = next_text(alloc, reader)?;
            parts.hash = Some(hash);
            Ok(())
        }
        "inputSourceMap" => {
            let map = next_source_map(alloc, reader)?;
            parts.source_map = Some(map);
            Ok(())
        }
        _ => next_map(alloc, reader, name, &mut parts.maps),
    }
}

// Keeps the entries of the value that comes next, if this is the name of a map or of its counts; any
// other value is passed over.
fn next_map(
    alloc: Global,
    reader: &mut Reader<'_>,
    name: &str,
    maps: &mut MapParts,
) -> Result<(), Unread>
    ensures ok { OnOk result (parse_map (λ value. spec.maps_with name.now value maps.old) (converted of_json (tokens_value most_depth reader.old))
        ≡ Some (maps.new, reader.new)) }
    ensures shorter { OnOk result (length reader.new < length reader.old) }
    ensures err { result ≡ Err NoJson → converted of_json (tokens_value most_depth reader.old) ≡ None }
{
    match name {
        "statementMap" => {
            let entries = next_entries(alloc, reader)?;
            maps.statement_map = entries;
            Ok(())
        }
        "s" => {
            let entries = next_entries(alloc, reader)?;
            maps.statement_counts = entries;
            Ok(())
        }
        "fnMap" => {
            let entries = next_entries(alloc, reader)?;
            maps.function_map = entries;
            Ok(())
        }
        "f" => {
            let entries = next_entries(alloc, reader)?;
            maps.function_counts = entries;
            Ok(())
        }
        "branchMap" => {
            let entries = next_entries(alloc, reader)?;
            maps.branch_map = entries;
            Ok(())
        }
        "b" => {
            let entries = next_entries(alloc, reader)?;
            maps.branch_counts = entries;
            Ok(())
        }
        _ => Ok(skip_value(reader, MEMBER_DEPTH)?),
    }
}

// Whether the value that comes next is the text of a key.
fn next_path(alloc: Global, reader: &mut Reader<'_>, key: &str) -> Result<bool, Unread>
    ensures ok { IfOk result (λ is. parse_map (λ value. spec.is_key key.now (as_str value)) (converted of_json (tokens_value most_depth reader.old))
        ≡ Some (is, reader.new)) }
    ensures shorter { OnOk result (length reader.new < length reader.old) }
    ensures err { result ≡ Err NoJson → converted of_json (tokens_value most_depth reader.old) ≡ None }
{
    let value = next_value(alloc, reader, MEMBER_DEPTH)?;
    Ok(is_key(key, &value))
}

// The text that the value is that comes next.
fn next_text(alloc: Global, reader: &mut Reader<'_>) -> Result<Option<Text>, Unread>
    ensures ok { IfOk result (λ text. parse_map as_str (converted of_json (tokens_value most_depth reader.old))
        ≡ Some (text, reader.new)) }
    ensures shorter { OnOk result (length reader.new < length reader.old) }
    ensures err { result ≡ Err NoJson → converted of_json (tokens_value most_depth reader.old) ≡ None }
{
    let value = next_value(alloc, reader, MEMBER_DEPTH)?;
    Ok(text_of(alloc, &value)?)
}

// The source map that the value is that comes next.
fn next_source_map(alloc: Global, reader: &mut Reader<'_>) -> Result<Option<SourceMapText>, Unread>
    ensures ok { IfOk result (λ map. parse_map source_map_text_of (converted of_json (tokens_value most_depth reader.old))
        ≡ Some (map, reader.new)) }
    ensures shorter { OnOk result (length reader.new < length reader.old) }
    ensures err { result ≡ Err NoJson → converted of_json (tokens_value most_depth reader.old) ≡ None }
{
    let value = next_value(alloc, reader, MEMBER_DEPTH)?;
    Ok(SourceMapText::from_value(alloc, &value)?)
}

// What is kept of the entries of the value that comes next.
fn next_entries<E: Entry>(alloc: Global, reader: &mut Reader<'_>) -> Result<Entries<E>, Unread>
    ensures ok { IfOk result (λ found. parse_map (spec.value_kept E.tells) (converted of_json (tokens_value most_depth reader.old))
        ≡ Some (found, reader.new)) }
    ensures shorter { OnOk result (length reader.new < length reader.old) }
    ensures err { result ≡ Err NoJson → converted of_json (tokens_value most_depth reader.old) ≡ None }
{
    let entered = enter_object(reader, MEMBER_DEPTH)?;
    if entered {
        next_numbered(alloc, reader)
    } else {
        Ok(Entries::none())
    }
}

// What is kept of the entries up to the brace that closes their object; of equal keys the last one
// counts.
fn next_numbered<E: Entry>(alloc: Global, reader: &mut Reader<'_>) -> Result<Entries<E>, Unread>
    ensures ok { IfOk result (λ found. parse_map (spec.entries_kept E.tells)
        (converted (λ ms. of_members ms no_members) (members (tokens_value (most_depth - 1)) (length reader.old) reader.old))
        ≡ Some (found, reader.new)) }
    ensures shorter { OnOk result (length reader.new < length reader.old) }
    ensures err { result ≡ Err NoJson
        → converted (λ ms. of_members ms no_members) (members (tokens_value (most_depth - 1)) (length reader.old) reader.old) ≡ None }
{
    let mut found = Entries::new(alloc);
    'members: while let Some(name) = reader.next_key()? {
        let entry = next_entry(alloc, reader)?;
        found = found.with(name, entry)?;
    }
    Ok(found)
}

// What is kept of the entry that comes next.
fn next_entry<E: Entry>(alloc: Global, reader: &mut Reader<'_>) -> Result<E, Unread>
    ensures ok { IfOk result (λ entry. parse_map E.tells (converted of_json (tokens_value (most_depth - 1) reader.old))
        ≡ Some (entry, reader.new)) }
    ensures shorter { OnOk result (length reader.new < length reader.old) }
    ensures err { result ≡ Err NoJson → converted of_json (tokens_value (most_depth - 1) reader.old) ≡ None }
{
    let value = next_value(alloc, reader, MEMBER_DEPTH - 1)?;
    Ok(E::from_value(alloc, &value)?)
}
