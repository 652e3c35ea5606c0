ghost use Rattle.std.specs.Prelude.{◌≡◌, ◌↔◌, List, [], ◌++◌, Result, Ok, IfOk, IsTrue, Some};
ghost use Rattle.cov_object.specs.Read.{coverage_of};
ghost use Rattle.cov_object.specs.declared.fault.CoverageFault.TheVariants as unread;
ghost use Rattle.cov_object.specs.declared.file.FileCoverage.{FileCoverage};
ghost use Rattle.cov_merge.specs.declared.fault.MergeFault.{MergeFault};
ghost use Rattle.cov_merge.specs.Answer as Sum;
ghost use Rattle.cov_merge.specs.Maps.{merged};
ghost use Rattle.cov_inputs.specs.Inputs as spec;
ghost use Rattle.cov_inputs.specs.declared.refusal.Refusal.TheVariants as why;
ghost use Rattle.source_map.specs.declared.fault.MapFault.TheVariants as no_map;
ghost use Rattle.cov_inputs.specs.private.Answer.{Answers, IsRefusal};

use crate::{InputFault, Refusal, What};
use cov_merge::{MergeFault, each_path, merge_onto};
use cov_object::{CoverageFault, CoverageMap, read_json};
use cov_remap::{RemapFault, remap, whole_way};
use items::Text;
use source_map::MapFault;
use std::alloc::Global;

/// That there is no file at a path.
pub(crate) fn no_file(alloc: Global, path: &str) -> InputFault
    ensures { IsRefusal result (why.NoFile path.now) }
{
    match Text::from_str(alloc, path) {
        Ok(path) => InputFault::Refused(Refusal::NoFile { path }),
        Err(_) => InputFault::Memory,
    }
}

/// That the file at a path is too long.
pub(crate) fn too_long(alloc: Global, path: &str) -> InputFault
    ensures { IsRefusal result (why.TooLong path.now) }
{
    match Text::from_str(alloc, path) {
        Ok(path) => InputFault::Refused(Refusal::TooLong { path }),
        Err(_) => InputFault::Memory,
    }
}

/// That the file at a path is no coverage file, by what is wrong with it.
pub(crate) fn bad_input(alloc: Global, path: &str, what: What) -> InputFault
    ensures { IsRefusal result (why.BadInput path.now what) }
{
    match Text::from_str(alloc, path) {
        Ok(path) => InputFault::Refused(Refusal::BadInput { path, what }),
        Err(_) => InputFault::Memory,
    }
}

/// Why the file at a path is no coverage file.
fn refused(alloc: Global, path: &str, fault: CoverageFault) -> InputFault
    ensures refusal { IsRefusal result (spec.refusal_of path.now fault) }
    ensures memory { fault ≡ unread.Memory → result ≡ InputFault.Memory }
{
    match fault {
        CoverageFault::Memory => InputFault::Memory,
        CoverageFault::TooLong => too_long(alloc, path),
        CoverageFault::BadJson => bad_input(alloc, path, What::NotJson),
        CoverageFault::BadMember { path: _, name } => {
            bad_input(alloc, path, What::Member { name })
        }
        CoverageFault::Count { path: _, name } => bad_input(alloc, path, What::Count { name }),
    }
}

/// The map that the bytes of the file at a path tell.
fn map_of(alloc: Global, path: &str, bytes: &[u8]) -> Result<CoverageMap, InputFault>
    ensures { Answers result (spec.or_refused path.now (coverage_of bytes.now)) }
{
    match read_json(alloc, bytes) {
        Ok(map) => Ok(map),
        Err(fault) => Err(refused(alloc, path, fault)),
    }
}

/// Why the source map of a file in the one at a path is none.
fn unmapped(alloc: Global, path: &str, fault: MapFault) -> InputFault
    ensures refusal { IsRefusal result (spec.map_refusal path.now fault) }
    ensures memory { fault ≡ no_map.Memory → result ≡ InputFault.Memory }
{
    match fault {
        MapFault::Memory => InputFault::Memory,
        MapFault::TooLong => too_long(alloc, path),
        MapFault::BadJson => bad_input(alloc, path, What::NotJson),
        MapFault::BadMember { name } => bad_input(alloc, path, What::Member { name }),
        MapFault::BadMappings { at } => bad_input(alloc, path, What::Mappings { at }),
    }
}

/// The map that the file at a path tells, remapped.
fn remapped(alloc: Global, path: &str, map: &CoverageMap) -> Result<CoverageMap, InputFault>
    ensures { Answers result (spec.remapped_at path.now map.now) }
{
    match remap(alloc, map) {
        Ok(map) => Ok(map),
        Err(RemapFault::BadMap { path: _, fault }) => Err(unmapped(alloc, path, fault)),
        Err(RemapFault::CountTooLarge { key: _, sum }) => {
            Err(InputFault::Refused(Refusal::CountTooLarge { sum }))
        }
        Err(RemapFault::Memory) => Err(InputFault::Memory),
    }
}

/// Sums that aren't too large.
fn or_too_large(sums: Result<CoverageMap, MergeFault>) -> Result<CoverageMap, InputFault>
    ensures { (answer : Result (List FileCoverage) MergeFault) → Sum.Answers sums answer → Answers result (spec.or_too_large answer) }
{
    match sums {
        Ok(map) => Ok(map),
        Err(MergeFault::CountTooLarge { key: _, sum }) => {
            Err(InputFault::Refused(Refusal::CountTooLarge { sum }))
        }
        Err(MergeFault::Memory) => Err(InputFault::Memory),
    }
}

/// Sums, and a map more: only the paths of the map are touched.
pub(crate) fn merged_onto(
    alloc: Global,
    sums: CoverageMap,
    map: &CoverageMap,
) -> Result<CoverageMap, InputFault>
    requires { merged sums ≡ Ok sums }
    ensures { Answers result (spec.merged_or_refused (sums ++ map.now)) }
{
    or_too_large(merge_onto(alloc, sums, map))
}

/// Whether a map has no files.
fn is_empty(map: &CoverageMap) -> bool
    ensures { IsTrue result ↔ (map.now ≡ []) }
{
    map.files().next().is_none()
}

/// The sums with this map more, which the file at a path tells. Those of a first map are its own: they
/// are merged already.
fn with_map(
    alloc: Global,
    sums: CoverageMap,
    path: &str,
    map: &CoverageMap,
) -> Result<CoverageMap, InputFault>
    requires { merged sums ≡ Ok sums }
    ensures answers { Answers result (spec.with_files path.now sums map.now) }
    ensures merged { IfOk result (λ all. merged all ≡ Ok all) }
{
    each_path();
    whole_way();
    let own = remapped(alloc, path, map)?;
    if is_empty(&sums) {
        Ok(own)
    } else {
        merged_onto(alloc, sums, &own)
    }
}

/// The sums with the file at a path more, which has these bytes.
pub(crate) fn with_bytes(
    alloc: Global,
    sums: CoverageMap,
    path: &str,
    bytes: &[u8],
) -> Result<CoverageMap, InputFault>
    requires { merged sums ≡ Ok sums }
    ensures answers { Answers result (spec.with_input sums (record { path = path.now; found = Some bytes.now })) }
    ensures merged { IfOk result (λ all. merged all ≡ Ok all) }
{
    let map = map_of(alloc, path, bytes)?;
    with_map(alloc, sums, path, &map)
}
