ghost use Rattle.std.specs.Prelude.{◌≡◌, ◌≤◌, ℕ, List, [], Some, None, Ok, Err, IfOk, IfErr};
ghost use Rattle.cov_base.specs.Causes.{Rose};
ghost use Rattle.cov_merge.specs.Maps.{merged};
ghost use Rattle.cov_inputs.specs.Inputs.{HaveSums, IsCause};
ghost use Rattle.cov_inputs.specs.declared.fault.InputFault.TheVariants.{ReadFailed};
ghost use Rattle.cov_inputs.specs.private.Answer.{AnswersAt, IsReadFailure};

use crate::InputFault;
use crate::file::{no_file, with_bytes};
use cov_base::{Failed, Store};
use cov_object::CoverageMap;
use items::Text;
use std::alloc::Global;

/// That the read of the file at a path failed.
pub(crate) fn read_failed(alloc: Global, path: &str) -> InputFault
    ensures { IsReadFailure result path.now }
{
    match Text::from_str(alloc, path) {
        Ok(path) => InputFault::ReadFailed { path },
        Err(_) => InputFault::Memory,
    }
}

/// The sums with the file at a path more.
fn with_file<S: Store>(
    alloc: Global,
    store: &mut S,
    sums: CoverageMap,
    path: &str,
) -> Result<CoverageMap, InputFault>
    requires { merged sums ≡ Ok sums }
    ensures answers { AnswersAt (S.held store.old) sums path.now result }
    ensures merged { IfOk result (λ all. merged all ≡ Ok all) }
    ensures failed { (at : List ℕ) → result ≡ Err (ReadFailed at) → S.fails store.old at store.new }
    ensures rose { (at : List ℕ) → result ≡ Err (ReadFailed at) → Rose (S.read_faults store.old) (S.read_faults store.new) }
    ensures later { S.read_faults store.old ≤ S.read_faults store.new }
    ensures unchanged { S.held store.new ≡ S.held store.old }
    ensures puts { S.put_faults store.new ≡ S.put_faults store.old }
{
    match store.read(path) {
        Ok(Some(bytes)) => with_bytes(alloc, sums, path, bytes.as_slice()),
        Ok(None) => Err(no_file(alloc, path)),
        Err(Failed::Device) => Err(read_failed(alloc, path)),
        Err(Failed::Memory) => Err(InputFault::Memory),
    }
}

/// The sums of the coverage files at these paths, which are read, remapped and merged one after another:
/// each is read, has its length and its form, is remapped, and has sums with those before it, before the
/// next is read.
///
/// # Errors
/// The first that comes: there is no such file, the read failed, the file is too long or no coverage
/// file, a source map in it is none, or counts come to 2^53; want of memory at any point.
pub fn gathered<S: Store>(
    alloc: Global,
    store: &mut S,
    files: &[Text],
) -> Result<CoverageMap, InputFault>
    ensures sums { IfOk result (λ sums. HaveSums (S.held store.old) files.now sums) }
    ensures fault { IfErr result (λ fault. IsCause (S.held store.old) files.now fault) }
    ensures failed { (at : List ℕ) → result ≡ Err (ReadFailed at) → (before : S) × S.fails before at store.new }
    ensures rose { (at : List ℕ) → result ≡ Err (ReadFailed at) → Rose (S.read_faults store.old) (S.read_faults store.new) }
    ensures unchanged { S.held store.new ≡ S.held store.old }
    ensures puts { S.put_faults store.new ≡ S.put_faults store.old }
{
    let mut sums = CoverageMap::new(alloc);
    for file in files {
        match with_file(alloc, store, sums, file.as_str()) {
            Ok(next) => sums = next,
            Err(fault) => return Err(fault),
        }
    }
    Ok(sums)
}
