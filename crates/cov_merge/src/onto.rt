ghost use Rattle.std.specs.Prelude.{◌≡◌, ◌++◌, Ok, map, IfOk};
ghost use Rattle.cov_object.specs.Files.{AreInOrder};
ghost use Rattle.cov_merge.specs.Answer.{Answers};
ghost use Rattle.cov_merge.specs.Maps.{merged};
ghost use Rattle.cov_merge.specs.private.Onto as spec;

use crate::fault::MergeFault;
use crate::file::merge_file;
use cov_object::{CoverageMap, FileCoverage};
use items::Memory;
use std::alloc::Global;

/// A map that is merged already, and another, as one: as `merge`, but the paths of the other alone
/// are touched.
///
/// # Errors
/// As `merge`.
pub fn merge_onto(
    alloc: Global,
    sums: CoverageMap,
    more: &CoverageMap,
) -> Result<CoverageMap, MergeFault>
    requires { merged sums ≡ Ok sums }
    ensures { Answers result (merged (sums ++ more.now)) }
{
    let files = files_of(alloc, more)?;
    with_files(alloc, sums, files.as_slice())
}

// The files of a map, lent.
fn files_of<'a>(alloc: Global, coverage: &'a CoverageMap) -> Result<Vec<&'a FileCoverage>, Memory>
    ensures files { IfOk result (λ files. map (λ file. file.now) files.items ≡ coverage.now) }
    ensures order { AreInOrder coverage.now }
{
    coverage.files().collect(alloc)
}

// A map that is merged already with these files more, whose paths ascend.
fn with_files(
    alloc: Global,
    sums: CoverageMap,
    files: &[&FileCoverage],
) -> Result<CoverageMap, MergeFault>
    requires merged { merged sums ≡ Ok sums }
    requires order { AreInOrder (map (λ file. file.now) files.now) }
    ensures { Answers result (merged (sums ++ map (λ file. file.now) files.now)) }
{
    let mut sums = sums;
    for file in files {
        match joined(alloc, &sums, file) {
            Ok(all) => {
                let _ = sums.insert(all)?;
            }
            Err(fault) => return Err(fault),
        }
    }
    Ok(sums)
}

// A file with the one that stands at its path, if there is one, as one.
fn joined(
    alloc: Global,
    sums: &CoverageMap,
    file: &FileCoverage,
) -> Result<FileCoverage, MergeFault>
    ensures { Answers result (spec.joined sums.now file.now) }
{
    let path = file.path.as_str();
    match sums.get(path) {
        Some(old) => merge_file(alloc, path, &[old, file]),
        None => merge_file(alloc, path, &[file]),
    }
}
