ghost use Rattle.std.specs.Prelude.{◌≡◌, map, IfOk};
ghost use Rattle.cov_merge.specs.Answer.{Answers};
ghost use Rattle.cov_merge.specs.Files as spec;
ghost use Rattle.cov_merge.specs.Same.{same_text};
ghost use Rattle.std.specs.List.{list_all};
ghost use Rattle.std.specs.Option.{option_eq};

use crate::entries::merge_entries;
use crate::fault::MergeFault;
use cov_object::{FileCoverage, Numbered, SourceMapText};
use items::{Memory, Text};
use std::alloc::Global;

// The files at a path, as one.
pub(crate) fn merge_file(
    alloc: Global,
    path: &str,
    files: &[&FileCoverage],
) -> Result<FileCoverage, MergeFault>
    ensures { Answers result (spec.merged_file path.now (map (λ file. file.now) files.now)) }
{
    let statements = merge_entries(alloc, path, files)?;
    let functions = merge_entries(alloc, path, files)?;
    let branches = merge_entries(alloc, path, files)?;
    Ok(FileCoverage {
        path: Text::from_str(alloc, path)?,
        hash: hash_of(alloc, files)?,
        input_source_map: source_map_of(alloc, files)?,
        statements: Numbered::from_vec(alloc, statements.into_vec())?,
        functions: Numbered::from_vec(alloc, functions.into_vec())?,
        branches: Numbered::from_vec(alloc, branches.into_vec())?,
    })
}

// The hash that all of them have, if there is one.
fn hash_of(alloc: Global, files: &[&FileCoverage]) -> Result<Option<Text>, Memory>
    ensures { IfOk result (λ hash. hash ≡ spec.hash_of (map (λ file. file.now) files.now)) }
{
    match files.split_first() {
        None => Ok(None),
        Some((first, others)) => {
            if have_hash(&first.hash, others) {
                copy_text(alloc, &first.hash)
            } else {
                Ok(None)
            }
        }
    }
}

// Whether all files have this hash, or lack one as it does.
fn have_hash(hash: &Option<Text>, files: &[&FileCoverage]) -> bool
    ensures { result ≡ list_all (λ file. option_eq same_text hash.now file.hash) (map (λ file. file.now) files.now) }
{
    for file in files {
        if !is_same_hash(hash, &file.hash) {
            return false;
        }
    }
    true
}

// Whether two hashes are the same, or both are missing.
fn is_same_hash(a: &Option<Text>, b: &Option<Text>) -> bool
    ensures { result ≡ option_eq same_text a.now b.now }
{
    match a {
        None => b.is_none(),
        Some(a) => match b {
            None => false,
            Some(b) => a.as_str() == b.as_str(),
        },
    }
}

// A copy of a text, where there is one.
fn copy_text(alloc: Global, text: &Option<Text>) -> Result<Option<Text>, Memory>
    ensures { IfOk result (λ copy. copy ≡ text.now) }
{
    match text {
        None => Ok(None),
        Some(text) => Ok(Some(Text::from_str(alloc, text.as_str())?)),
    }
}

// A copy of the first source map, if there is one.
fn source_map_of(alloc: Global, files: &[&FileCoverage]) -> Result<Option<SourceMapText>, Memory>
    ensures { IfOk result (λ found. found ≡ spec.source_map_of (map (λ file. file.now) files.now)) }
{
    for file in files {
        if let Some(text) = &file.input_source_map {
            return Ok(Some(text.copy(alloc)?));
        }
    }
    Ok(None)
}
