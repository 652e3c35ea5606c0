// The source map beside a file.
ghost use Rattle.std.specs.Prelude.{◌≡◌, ◌≤◌, ℕ, List, Some, Ok, Err, IfOk, IfErr, IfSome};
ghost use Rattle.source_map.specs.Kept.{HasTexts};
ghost use Rattle.cov_base.specs.Causes.{Rose};
ghost use Rattle.cov_run.specs.Loaded as spec;
ghost use Rattle.cov_run.specs.declared.fault.LoadFault.TheVariants.{ReadFault};
ghost use Rattle.cov_run.specs.private.Step.{IsInputFault, IsMapFault};

use crate::fault::LoadFault;
use cov_base::{Failed, Store};
use items::{Memory, Text};
use source_map::{InputMap, MapFault, look_at, read};
use std::alloc::Global;

/// How many bytes a source map may have: 16 MiB.
const MOST_MAP_BYTES: u64 = 16_777_216;

/// The source map beside the file at a path; none where nothing is held there.
pub(crate) fn input_at<S: Store>(
    alloc: Global,
    store: &mut S,
    path: &str,
) -> Result<Option<InputMap>, LoadFault>
    ensures input { IfOk result (λ input. spec.HasInput (S.held store.old) path.now input) }
    ensures fault { IfErr result (λ fault. IsInputFault (S.held store.old) fault path.now) }
    ensures failed { (at : List ℕ) → result ≡ Err (ReadFault at) → S.fails store.old at store.new }
    ensures rose { (at : List ℕ) → result ≡ Err (ReadFault at) → Rose (S.read_faults store.old) (S.read_faults store.new) }
    ensures later { S.read_faults store.old ≤ S.read_faults store.new }
    ensures unchanged { S.held store.new ≡ S.held store.old }
    ensures puts { S.put_faults store.new ≡ S.put_faults store.old }
{
    let place = map_path(alloc, path)?;
    match store.read(place.as_str()) {
        Ok(Some(bytes)) => input_in(alloc, place, bytes.as_slice()),
        Ok(None) => Ok(None),
        Err(Failed::Device) => Err(LoadFault::ReadFault { path: place }),
        Err(Failed::Memory) => Err(LoadFault::Memory),
    }
}

/// The path of the source map of the file at a path.
fn map_path(alloc: Global, path: &str) -> Result<Text, Memory>
    ensures { IfOk result (λ place. place ≡ spec.map_path path.now) }
{
    Ok(Text::from_string(format!(in alloc; "{path}.map")?))
}

/// The source map that the bytes at a path tell.
fn input_in(alloc: Global, path: Text, bytes: &[u8]) -> Result<Option<InputMap>, LoadFault>
    ensures input { IfOk result (λ input. spec.map_in (Some bytes.now) ≡ Ok input) }
    ensures fault { IfErr result (λ fault. IsMapFault fault path bytes.now) }
    ensures texts { IfOk result (λ input. IfSome input HasTexts) }
    ensures read { (at : List ℕ) → result ≡ Err (ReadFault at) → ⊥ }
{
    match read(alloc, bytes, MOST_MAP_BYTES) {
        Ok(map) => {
            look_at(&map);
            Ok(Some(map))
        }
        Err(MapFault::TooLong) => Err(LoadFault::TooLong { path }),
        Err(MapFault::Memory) => Err(LoadFault::Memory),
        Err(fault) => Err(LoadFault::BadMap { path, fault }),
    }
}
