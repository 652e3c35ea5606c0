ghost use Rattle.std.specs.Prelude.{◌≡◌, ◌≢◌, Ok, Err, IfOk, IfErr};
ghost use Rattle.cov_object.specs.declared.fault.CoverageFault.TheVariants.{Memory as OutOfMemory};
ghost use Rattle.cov_object.specs.Read as spec;
ghost use Rattle.cov_object.specs.private.ByMember.{path_told, numbered_told, hash_told, source_map_told, origin_told, file_told};

use crate::branch::BranchCoverage;
use crate::by_file::files_in;
use crate::fault::{CoverageFault, bad_member};
use crate::file::{FileCoverage, FunctionCoverage, StatementCoverage};
use crate::map::CoverageMap;
use crate::numbered::Numbered;
use crate::parts::{FileParts, MapParts};
use crate::source_map_text::SourceMapText;
use crate::things::read_things;
use items::Text;
use std::alloc::Global;

/// The coverage map that bytes tell as JSON, Istanbul's `coverage-final.json`: an object from each
/// file's path to its coverage. Members that aren't known are passed over. Older makers left out a
/// function's `decl`, which is then its `loc`, and a branch's `loc`, which then goes from the start of
/// its first location to the end of its last.
///
/// `TooLong` comes exactly over 16 MiB, before all else. Of the other faults the first one comes:
/// files go by the byte order of their paths, and in each file `path`, `statementMap` and `s`, `fnMap`
/// and `f`, `branchMap` and `b`, `hash`, `inputSourceMap`. Where a map and its counts have different
/// ids, or a branch has not one count for each of its paths, the member named is that of the counts,
/// and this comes before the counts themselves. Only want of memory may come besides.
pub fn read_json(alloc: Global, bytes: &[u8]) -> Result<CoverageMap, CoverageFault>
    ensures ok { IfOk result (λ map. spec.coverage_of bytes.now ≡ Ok map) }
    ensures err { IfErr result (λ fault. fault ≢ OutOfMemory → spec.coverage_of bytes.now ≡ Err fault) }
{
    if bytes.len() > 1 << 24 {
        return Err(CoverageFault::TooLong);
    }
    let Ok(text) = std::str::from_utf8(bytes) else {
        return Err(CoverageFault::BadJson);
    };
    files_in(alloc, text)
}

// The file under a key, of what was kept of its members.
pub(crate) fn read_file(
    alloc: Global,
    key: &str,
    parts: FileParts,
) -> Result<FileCoverage, CoverageFault>
    ensures ok { IfOk result (λ file. file_told key.now parts ≡ Ok file) }
    ensures err { IfErr result (λ fault. fault ≢ OutOfMemory → file_told key.now parts ≡ Err fault) }
{
    let FileParts {
        has_path,
        maps,
        hash,
        source_map,
    } = parts;
    let path = read_path(alloc, key, has_path)?;
    let (statements, functions, branches) = read_numbered(alloc, path.as_str(), maps)?;
    let (hash, input_source_map) = read_origin(alloc, path.as_str(), hash, source_map)?;
    Ok(FileCoverage {
        path,
        hash,
        input_source_map,
        statements,
        functions,
        branches,
    })
}

// The statements, functions and branches.
fn read_numbered(
    alloc: Global,
    path: &str,
    maps: MapParts,
) -> Result<
    (
        Numbered<StatementCoverage>,
        Numbered<FunctionCoverage>,
        Numbered<BranchCoverage>,
    ),
    CoverageFault,
>
    ensures ok { IfOk result (λ numbered. numbered_told path.now maps ≡ Ok numbered) }
    ensures err { IfErr result (λ fault. fault ≢ OutOfMemory → numbered_told path.now maps ≡ Err fault) }
{
    let MapParts {
        statement_map,
        statement_counts,
        function_map,
        function_counts,
        branch_map,
        branch_counts,
    } = maps;
    let statements = read_things(
        alloc,
        path,
        "statementMap",
        "s",
        statement_map,
        statement_counts,
    )?;
    let functions = read_things(alloc, path, "fnMap", "f", function_map, function_counts)?;
    let branches = read_things(alloc, path, "branchMap", "b", branch_map, branch_counts)?;
    Ok((statements, functions, branches))
}

// The hash and the source map, where there are any.
fn read_origin(
    alloc: Global,
    path: &str,
    hash: Option<Option<Text>>,
    source_map: Option<Option<SourceMapText>>,
) -> Result<(Option<Text>, Option<SourceMapText>), CoverageFault>
    ensures ok { IfOk result (λ origin. origin_told path.now hash source_map ≡ Ok origin) }
    ensures err { IfErr result (λ fault. fault ≢ OutOfMemory → origin_told path.now hash source_map ≡ Err fault) }
{
    let hash = read_hash(alloc, path, hash)?;
    let input_source_map = read_source_map(alloc, path, source_map)?;
    Ok((hash, input_source_map))
}

// The path, which is the key.
fn read_path(alloc: Global, key: &str, has_path: bool) -> Result<Text, CoverageFault>
    ensures ok { IfOk result (λ path. path_told key.now has_path ≡ Ok path) }
    ensures err { IfErr result (λ fault. fault ≢ OutOfMemory → path_told key.now has_path ≡ Err fault) }
{
    if has_path {
        Ok(Text::from_str(alloc, key)?)
    } else {
        Err(bad_member(alloc, key, "path"))
    }
}

// The hash, where there is one.
fn read_hash(
    alloc: Global,
    path: &str,
    hash: Option<Option<Text>>,
) -> Result<Option<Text>, CoverageFault>
    ensures ok { IfOk result (λ found. hash_told path.now hash ≡ Ok found) }
    ensures err { IfErr result (λ fault. fault ≢ OutOfMemory → hash_told path.now hash ≡ Err fault) }
{
    match hash {
        None => Ok(None),
        Some(Some(hash)) => Ok(Some(hash)),
        Some(None) => Err(bad_member(alloc, path, "hash")),
    }
}

// The source map, where there is one.
fn read_source_map(
    alloc: Global,
    path: &str,
    map: Option<Option<SourceMapText>>,
) -> Result<Option<SourceMapText>, CoverageFault>
    ensures ok { IfOk result (λ found. source_map_told path.now map ≡ Ok found) }
    ensures err { IfErr result (λ fault. fault ≢ OutOfMemory → source_map_told path.now map ≡ Err fault) }
{
    match map {
        None => Ok(None),
        Some(Some(map)) => Ok(Some(map)),
        Some(None) => Err(bad_member(alloc, path, "inputSourceMap")),
    }
}
