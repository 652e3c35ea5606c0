ghost use Rattle.std.specs.Prelude.{◌≡◌, [], ◌++◌, fold, map, OnOk};
ghost use Rattle.std.specs.List.{flat_map};
ghost use Rattle.cov_merge.specs.Answer.{Answers};
ghost use Rattle.cov_merge.specs.Maps.{merged, merged_groups, with_file};
ghost use Rattle.cov_merge.specs.private.Groups.{groups_of};

use crate::fault::MergeFault;
use crate::file::merge_file;
use cov_object::{CoverageMap, FileCoverage};
use items::Memory;
use std::alloc::Global;
use std::collections::BTreeMap;

/// Two coverage maps as one: for each path and key, the sum of the counts of all entries with that
/// key in both. Keys stand in the order in which they first appear, and are numbered from 0. A
/// function's name is that of the first entry; a hash stays where all files at a path have it; the
/// first source map stays.
///
/// # Errors
/// `CountTooLarge` where the counts of a key come to 2^53 or more; want of memory.
pub fn merge(alloc: Global, a: &CoverageMap, b: &CoverageMap) -> Result<CoverageMap, MergeFault>
    ensures { Answers result (merged (a.now ++ b.now)) }
{
    let mut groups = BTreeMap::new(alloc);
    add_map(alloc, &mut groups, a)?;
    add_map(alloc, &mut groups, b)?;
    merge_groups(alloc, groups)
}

/// Coverage maps as one, merged from left to right, beginning with the empty map.
///
/// # Errors
/// As `merge`: the key is the first over the sums of all maps.
pub fn merge_all(alloc: Global, maps: &[CoverageMap]) -> Result<CoverageMap, MergeFault>
    ensures { Answers result (merged (flat_map (λ map. map) maps.now)) }
{
    let mut groups = BTreeMap::new(alloc);
    for map in maps {
        add_map(alloc, &mut groups, map)?;
    }
    merge_groups(alloc, groups)
}

/// Files as a coverage map: for each path and key, the sum of the counts of all entries with that key in
/// the files at that path, as `merge` gives it. The files stand in any order, and several may have one
/// path.
///
/// # Errors
/// As `merge`.
pub fn merge_files(alloc: Global, files: &[&FileCoverage]) -> Result<CoverageMap, MergeFault>
    ensures { Answers result (merged (map (λ file. file.now) files.now)) }
{
    let mut groups = BTreeMap::new(alloc);
    for file in files {
        add_file(alloc, &mut groups, file)?;
    }
    merge_groups(alloc, groups)
}

// Puts the files of a map after the others at their paths. After want of memory `groups` is of no
// use.
fn add_map<'a>(
    alloc: Global,
    groups: &mut BTreeMap<&'a str, Vec<&'a FileCoverage>>,
    map: &'a CoverageMap,
) -> Result<(), Memory>
    ensures { OnOk result (groups_of groups.new.entries ≡ fold with_file (groups_of groups.old.entries) map.now) }
{
    for file in map.files() {
        add_file(alloc, groups, file)?;
    }
    Ok(())
}

// Puts a file after the others at its path.
fn add_file<'a>(
    alloc: Global,
    groups: &mut BTreeMap<&'a str, Vec<&'a FileCoverage>>,
    file: &'a FileCoverage,
) -> Result<(), Memory>
    ensures { OnOk result (groups_of groups.new.entries ≡ with_file (groups_of groups.old.entries) file.now) }
{
    let path = file.path.as_str();
    match groups.get_mut(&path) {
        Some(files) => {
            files.push(file)?;
        }
        None => {
            let mut files = Vec::new(alloc);
            files.push(file)?;
            groups.insert(path, files)?;
        }
    }
    Ok(())
}

// The files of each path as one.
fn merge_groups(
    alloc: Global,
    groups: BTreeMap<&str, Vec<&FileCoverage>>,
) -> Result<CoverageMap, MergeFault>
    ensures { Answers result (merged_groups [] (groups_of groups.entry.entries)) }
{
    let list: Vec<(&str, Vec<&FileCoverage>)> = groups.into_iter().collect(alloc)?;
    merge_list(alloc, list.as_slice())
}

fn merge_list(
    alloc: Global,
    groups: &[(&str, Vec<&FileCoverage>)],
) -> Result<CoverageMap, MergeFault>
    ensures { Answers result (merged_groups [] (groups_of groups.now)) }
{
    let mut map = CoverageMap::new(alloc);
    for (path, files) in groups {
        let file = merge_file(alloc, path, files.as_slice())?;
        let _ = map.insert(file)?;
    }
    Ok(map)
}
