ghost use Rattle.std.specs.Prelude.{◌≡◌, ◌≤◌, ◌++◌, length, Ok, IfOk, OnOk};
ghost use Rattle.cov_object.specs.Files.{HaveSmallIds};
ghost use Rattle.cov_object.specs.Read.{most_bytes, coverage_of};
ghost use Rattle.serde_json.specs.Written.{compact_text};
ghost use Rattle.cov_object.specs.Json as spec;
ghost use Rattle.cov_object.specs.private.Piece.{hash_text, source_map_text};

use crate::file::FileCoverage;
use crate::formed::look_at_file;
use crate::map::CoverageMap;
use crate::objects::push_counted;
use crate::piece::{push_key, push_text};
use crate::source_map_text::SourceMapText;
use items::{Memory, Text};
use std::alloc::Global;

/// The JSON of a coverage map, with no space: an object from each file's path to its coverage, the
/// members of every object in the byte order of their keys. Where every id is below 2^32 and the text
/// isn't over 16 MiB, `read_json` reads it to the same map. Want of memory is the only error.
pub fn write_json(alloc: Global, map: &CoverageMap) -> Result<Vec<u8>, Memory>
    ensures text { IfOk result (λ text. text.items ≡ spec.json_text map.now) }
    ensures reads_back { IfOk result (λ text. HaveSmallIds map.now → length text.items ≤ most_bytes
        → coverage_of text.items ≡ Ok map.now) }
{
    let mut out = Vec::new(alloc);
    out.push(b'{')?;
    let mut later = false;
    for file in map.files() {
        look_at_file(file);
        push_member(alloc, &mut out, later, file)?;
        later = true;
    }
    out.push(b'}')?;
    Ok(out)
}

/// Writes a file's member of the JSON of a map at the end of `out`, after others where there are
/// some: the file's path and its coverage. After want of memory `out` has what fitted.
pub fn push_member(
    alloc: Global,
    out: &mut Vec<u8>,
    later: bool,
    file: &FileCoverage,
) -> Result<(), Memory>
    ensures { OnOk result (out.new.items ≡ out.old.items ++ spec.file_member later file.now) }
{
    push_key(alloc, out, later, file.path.as_str())?;
    push_file(alloc, out, file)
}

// Writes a file's coverage at the end of `out`. It is written member by member, since a tree of
// the whole would take many times the memory of its text.
fn push_file(alloc: Global, out: &mut Vec<u8>, file: &FileCoverage) -> Result<(), Memory>
    ensures { OnOk result (out.new.items ≡ out.old.items ++ compact_text (spec.file_data file.now)) }
{
    out.push(b'{')?;
    push_counted(
        alloc,
        out,
        false,
        "b",
        "branchMap",
        file.branches.as_slice(),
    )?;
    push_counted(alloc, out, true, "f", "fnMap", file.functions.as_slice())?;
    push_hash(alloc, out, &file.hash)?;
    push_source_map(alloc, out, &file.input_source_map)?;
    push_text(alloc, out, "path", file.path.as_str())?;
    push_counted(
        alloc,
        out,
        true,
        "s",
        "statementMap",
        file.statements.as_slice(),
    )?;
    out.push(b'}')?;
    Ok(())
}

// Writes the member `hash` after another, where there is a hash.
fn push_hash(alloc: Global, out: &mut Vec<u8>, hash: &Option<Text>) -> Result<(), Memory>
    ensures { OnOk result (out.new.items ≡ out.old.items ++ hash_text hash.now) }
{
    match hash {
        Some(hash) => push_text(alloc, out, "hash", hash.as_str()),
        None => Ok(()),
    }
}

// Writes the member `inputSourceMap` after another, where there is a map.
fn push_source_map(
    alloc: Global,
    out: &mut Vec<u8>,
    map: &Option<SourceMapText>,
) -> Result<(), Memory>
    ensures { OnOk result (out.new.items ≡ out.old.items ++ source_map_text map.now) }
{
    match map {
        Some(map) => {
            push_key(alloc, out, true, "inputSourceMap")?;
            out.extend_from_slice(map.as_str().as_bytes())
        }
        None => Ok(()),
    }
}
