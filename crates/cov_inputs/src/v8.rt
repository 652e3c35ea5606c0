ghost use Rattle.std.specs.Prelude.{◌≡◌, ◌≤◌, ◌∷◌, ◌++◌, [], List, ℕ, Result, Ok, Err, IfOk, IfErr, IfSome};
ghost use Rattle.std.specs.List.{All};
ghost use Rattle.cov_base.specs.Causes.{Rose};
ghost use Rattle.cov_merge.specs.Maps.{merged};
ghost use Rattle.cov_v8.specs.Coverage.{coverage_of};
ghost use Rattle.cov_v8.specs.Form.{IsScript, AreFunctions};
ghost use Rattle.cov_v8.specs.Path.{source_of as source_named};
ghost use Rattle.cov_v8.specs.Read.{v8_in};
ghost use Rattle.cov_v8.specs.declared.fault.V8Fault.TheVariants as no_v8;
ghost use Rattle.cov_inputs.specs.Inputs.{merged_or_refused};
ghost use Rattle.cov_inputs.specs.V8 as spec;
ghost use Rattle.cov_inputs.specs.declared.refusal.Refusal.TheVariants as why;
ghost use Rattle.cov_inputs.specs.declared.fault.InputFault.TheVariants.{ReadFailed};
ghost use Rattle.cov_inputs.specs.private.Answer.{IsRefusal};
ghost use Rattle.cov_inputs.specs.private.Given.{NoReadFails};

use crate::file::{bad_input, merged_onto, no_file, too_long};
use crate::gather::read_failed;
use crate::{InputFault, Refusal, What};
use cov_base::{Failed, Store};
use cov_merge::each_path;
use cov_object::{CoverageMap, FileCoverage};
use cov_v8::{V8, V8Fault, V8Function, V8Script, read_v8, source_of, to_coverage};
use items::Text;
use js_text::{Limits, TextFault};
use std::alloc::Global;

/// That the source at a path isn't UTF-8 from a byte on.
fn not_utf8(alloc: Global, path: &str, at: u64) -> InputFault
    ensures { IsRefusal result (why.NotUtf8 path.now at) }
{
    match Text::from_str(alloc, path) {
        Ok(path) => InputFault::Refused(Refusal::NotUtf8 { path, at }),
        Err(_) => InputFault::Memory,
    }
}

/// The text that the bytes of the source at a path are.
fn text_of(alloc: Global, path: &str, bytes: Vec<u8>) -> Result<js_text::Text, InputFault>
    ensures gives { spec.Gives result (spec.text_of path.now bytes.items) }
    ensures read { NoReadFails result }
{
    match js_text::Text::from_bytes(alloc, bytes, Limits::source()) {
        Ok(text) => Ok(text),
        Err(TextFault::TooLong { len: _ }) => Err(too_long(alloc, path)),
        Err(TextFault::NotUtf8 { at }) => Err(not_utf8(alloc, path, at)),
        Err(TextFault::Memory) => Err(InputFault::Memory),
    }
}

/// The text of the source at a path.
fn text_at<S: Store>(alloc: Global, store: &mut S, path: &str) -> Result<js_text::Text, InputFault>
    ensures gives { IfSome (S.held store.old) (λ held. spec.Gives result (spec.text_at path.now (held path.now))) }
    ensures failed { (at : List ℕ) → result ≡ Err (ReadFailed at) → S.fails store.old at store.new }
    ensures reads { (at : List ℕ) → result ≡ Err (ReadFailed at) → at ≡ path.now }
    ensures rose { (at : List ℕ) → result ≡ Err (ReadFailed at) → Rose (S.read_faults store.old) (S.read_faults store.new) }
    ensures later { S.read_faults store.old ≤ S.read_faults store.new }
    ensures unchanged { S.held store.new ≡ S.held store.old }
    ensures puts { S.put_faults store.new ≡ S.put_faults store.old }
{
    match store.read(path) {
        Ok(Some(bytes)) => text_of(alloc, path, bytes),
        Ok(None) => Err(no_file(alloc, path)),
        Err(Failed::Device) => Err(read_failed(alloc, path)),
        Err(Failed::Memory) => Err(InputFault::Memory),
    }
}

/// Why the file at a path is none of V8's, or doesn't fit a source.
fn refused(alloc: Global, file: &str, fault: V8Fault) -> InputFault
    ensures refusal { IsRefusal result (spec.refusal_of file.now fault) }
    ensures memory { fault ≡ no_v8.Memory → result ≡ InputFault.Memory }
{
    match fault {
        V8Fault::Memory => InputFault::Memory,
        V8Fault::TooLong => too_long(alloc, file),
        V8Fault::BadJson => bad_input(alloc, file, What::NotJson),
        V8Fault::BadMember { name } => bad_input(alloc, file, What::Member { name }),
    }
}

/// What the functions of an entry tell of the source at a path.
fn coverage(
    alloc: Global,
    file: &str,
    path: &str,
    text: &js_text::Text,
    functions: &[V8Function],
) -> Result<FileCoverage, InputFault>
    requires { AreFunctions functions.now }
    ensures gives { spec.Gives result (spec.or_refused file.now (coverage_of path.now text.now functions.now)) }
    ensures read { NoReadFails result }
{
    match to_coverage(alloc, path, text, functions) {
        Ok(own) => Ok(own),
        Err(fault) => Err(refused(alloc, file, fault)),
    }
}

/// A map of one file.
fn map_of(alloc: Global, file: FileCoverage) -> Result<CoverageMap, InputFault>
    ensures map { IfOk result (λ map. map ≡ file ∷ []) }
    ensures fault { IfErr result (λ fault. fault ≡ InputFault.Memory) }
{
    let mut map = CoverageMap::new(alloc);
    let _ = map.insert(file)?;
    Ok(map)
}

/// The sums with the coverage of a file more.
fn with_coverage(
    alloc: Global,
    sums: CoverageMap,
    own: FileCoverage,
) -> Result<CoverageMap, InputFault>
    requires { merged sums ≡ Ok sums }
    ensures gives { spec.Gives result (merged_or_refused (sums ++ own ∷ [])) }
    ensures merged { IfOk result (λ all. merged all ≡ Ok all) }
    ensures read { NoReadFails result }
{
    each_path();
    match map_of(alloc, own) {
        Ok(map) => merged_onto(alloc, sums, &map),
        Err(fault) => Err(fault),
    }
}

/// The sums with what the functions of an entry tell of its source, whose text this is.
fn with_text(
    alloc: Global,
    sums: CoverageMap,
    file: &str,
    path: &str,
    text: &js_text::Text,
    functions: &[V8Function],
) -> Result<CoverageMap, InputFault>
    requires merged { merged sums ≡ Ok sums }
    requires formed { AreFunctions functions.now }
    ensures gives { spec.Gives result (spec.with_text file.now sums functions.now path.now text.now) }
    ensures merged { IfOk result (λ all. merged all ≡ Ok all) }
    ensures read { NoReadFails result }
{
    match coverage(alloc, file, path, text, functions) {
        Ok(own) => with_coverage(alloc, sums, own),
        Err(fault) => Err(fault),
    }
}

/// The sums with what the functions of an entry tell of the source at a path.
fn with_source<S: Store>(
    alloc: Global,
    store: &mut S,
    sums: CoverageMap,
    file: &str,
    functions: &[V8Function],
    path: &str,
) -> Result<CoverageMap, InputFault>
    requires merged { merged sums ≡ Ok sums }
    requires formed { AreFunctions functions.now }
    ensures gives { IfSome (S.held store.old) (λ held. spec.Gives result (spec.with_source held file.now sums functions.now path.now)) }
    ensures merged { IfOk result (λ all. merged all ≡ Ok all) }
    ensures failed { (at : List ℕ) → result ≡ Err (ReadFailed at) → S.fails store.old at store.new }
    ensures reads { (at : List ℕ) → result ≡ Err (ReadFailed at) → at ≡ path.now }
    ensures rose { (at : List ℕ) → result ≡ Err (ReadFailed at) → Rose (S.read_faults store.old) (S.read_faults store.new) }
    ensures later { S.read_faults store.old ≤ S.read_faults store.new }
    ensures unchanged { S.held store.new ≡ S.held store.old }
    ensures puts { S.put_faults store.new ≡ S.put_faults store.old }
{
    match text_at(alloc, store, path) {
        Ok(text) => with_text(alloc, sums, file, path, &text, functions),
        Err(fault) => Err(fault),
    }
}

/// The sums with an entry of the V8 file at a path. One that names no source is passed over.
fn with_script<S: Store>(
    alloc: Global,
    store: &mut S,
    sums: CoverageMap,
    file: &str,
    script: &V8Script,
) -> Result<CoverageMap, InputFault>
    requires merged { merged sums ≡ Ok sums }
    requires formed { IsScript script.now }
    ensures gives { IfSome (S.held store.old) (λ held. spec.Gives result (spec.with_script held file.now sums script.now)) }
    ensures merged { IfOk result (λ all. merged all ≡ Ok all) }
    ensures failed { (at : List ℕ) → result ≡ Err (ReadFailed at) → S.fails store.old at store.new }
    ensures reads { (at : List ℕ) → result ≡ Err (ReadFailed at) → source_named script.now.url ≡ Some at }
    ensures rose { (at : List ℕ) → result ≡ Err (ReadFailed at) → Rose (S.read_faults store.old) (S.read_faults store.new) }
    ensures later { S.read_faults store.old ≤ S.read_faults store.new }
    ensures unchanged { S.held store.new ≡ S.held store.old }
    ensures puts { S.put_faults store.new ≡ S.put_faults store.old }
{
    match source_of(alloc, script.url.as_str()) {
        Ok(Some(path)) => with_source(
            alloc,
            store,
            sums,
            file,
            script.functions.as_slice(),
            path.as_str(),
        ),
        Ok(None) => Ok(sums),
        Err(_) => Err(InputFault::Memory),
    }
}

/// The sums with all entries of the V8 file at a path.
fn with_scripts<S: Store>(
    alloc: Global,
    store: &mut S,
    sums: CoverageMap,
    file: &str,
    scripts: &[V8Script],
) -> Result<CoverageMap, InputFault>
    requires merged { merged sums ≡ Ok sums }
    requires formed { All IsScript scripts.now }
    ensures gives { IfSome (S.held store.old) (λ held. spec.Gives result (spec.with_scripts held file.now sums scripts.now)) }
    ensures merged { IfOk result (λ all. merged all ≡ Ok all) }
    ensures failed { (at : List ℕ) → result ≡ Err (ReadFailed at) → (before : S) × S.fails before at store.new }
    ensures reads { (at : List ℕ) → result ≡ Err (ReadFailed at) → IfSome (S.held store.old) (λ held. spec.ReadsSource held file.now sums scripts.now at) }
    ensures rose { (at : List ℕ) → result ≡ Err (ReadFailed at) → Rose (S.read_faults store.old) (S.read_faults store.new) }
    ensures later { S.read_faults store.old ≤ S.read_faults store.new }
    ensures unchanged { S.held store.new ≡ S.held store.old }
    ensures puts { S.put_faults store.new ≡ S.put_faults store.old }
{
    let mut sums = sums;
    let mut left = scripts;
    'scripts: while let Some((script, rest)) = left.split_first() {
        match with_script(alloc, store, sums, file, script) {
            Ok(next) => sums = next,
            Err(fault) => return Err(fault),
        }
        left = rest;
    }
    Ok(sums)
}

/// What the bytes of the V8 file at a path tell.
fn v8_of(alloc: Global, file: &str, bytes: &[u8]) -> Result<V8, InputFault>
    ensures gives { spec.Gives result (spec.or_refused file.now (v8_in bytes.now)) }
    ensures formed { IfOk result (λ v8. All IsScript v8.scripts) }
    ensures read { NoReadFails result }
{
    match read_v8(alloc, bytes) {
        Ok(v8) => Ok(v8),
        Err(fault) => Err(refused(alloc, file, fault)),
    }
}

/// What the V8 file at a path tells.
fn v8_at<S: Store>(alloc: Global, store: &mut S, file: &str) -> Result<V8, InputFault>
    ensures gives { IfSome (S.held store.old) (λ held. spec.Gives result (spec.v8_at file.now (held file.now))) }
    ensures formed { IfOk result (λ v8. All IsScript v8.scripts) }
    ensures failed { (at : List ℕ) → result ≡ Err (ReadFailed at) → S.fails store.old at store.new }
    ensures reads { (at : List ℕ) → result ≡ Err (ReadFailed at) → at ≡ file.now }
    ensures rose { (at : List ℕ) → result ≡ Err (ReadFailed at) → Rose (S.read_faults store.old) (S.read_faults store.new) }
    ensures later { S.read_faults store.old ≤ S.read_faults store.new }
    ensures unchanged { S.held store.new ≡ S.held store.old }
    ensures puts { S.put_faults store.new ≡ S.put_faults store.old }
{
    match store.read(file) {
        Ok(Some(bytes)) => v8_of(alloc, file, bytes.as_slice()),
        Ok(None) => Err(no_file(alloc, file)),
        Err(Failed::Device) => Err(read_failed(alloc, file)),
        Err(Failed::Memory) => Err(InputFault::Memory),
    }
}

/// The sums with the V8 file at a path more.
fn with_v8<S: Store>(
    alloc: Global,
    store: &mut S,
    sums: CoverageMap,
    file: &str,
) -> Result<CoverageMap, InputFault>
    requires { merged sums ≡ Ok sums }
    ensures gives { IfSome (S.held store.old) (λ held. spec.Gives result (spec.with_v8 held sums file.now)) }
    ensures merged { IfOk result (λ all. merged all ≡ Ok all) }
    ensures failed { (at : List ℕ) → result ≡ Err (ReadFailed at) → (before : S) × S.fails before at store.new }
    ensures reads { (at : List ℕ) → result ≡ Err (ReadFailed at) → IfSome (S.held store.old) (λ held. spec.ReadsFor held sums file.now at) }
    ensures rose { (at : List ℕ) → result ≡ Err (ReadFailed at) → Rose (S.read_faults store.old) (S.read_faults store.new) }
    ensures later { S.read_faults store.old ≤ S.read_faults store.new }
    ensures unchanged { S.held store.new ≡ S.held store.old }
    ensures puts { S.put_faults store.new ≡ S.put_faults store.old }
{
    match v8_at(alloc, store, file) {
        Ok(v8) => with_scripts(alloc, store, sums, file, v8.scripts.as_slice()),
        Err(fault) => Err(fault),
    }
}

/// The sums of what V8's coverage files at these paths tell of the sources that they name: each file is
/// read and has its form, then for each of its entries in order the source is read and is a text, the
/// entry's offsets are within it, and there are sums with what was told before.
///
/// # Errors
/// The first that comes: there is no such file or source, a read failed, it is too long, the source isn't
/// UTF-8, the file is none of V8's or has an offset past a source's end, or counts come to 2^53; want of
/// memory at any point.
pub fn gathered_v8<S: Store>(
    alloc: Global,
    store: &mut S,
    files: &[Text],
) -> Result<CoverageMap, InputFault>
    ensures gives { IfSome (S.held store.old) (λ held. spec.Gives result (spec.gathered_v8 held [] files.now)) }
    ensures failed { (at : List ℕ) → result ≡ Err (ReadFailed at) → (before : S) × S.fails before at store.new }
    ensures reads { (at : List ℕ) → result ≡ Err (ReadFailed at) → IfSome (S.held store.old) (λ held. spec.Reads held [] files.now at) }
    ensures rose { (at : List ℕ) → result ≡ Err (ReadFailed at) → Rose (S.read_faults store.old) (S.read_faults store.new) }
    ensures unchanged { S.held store.new ≡ S.held store.old }
    ensures puts { S.put_faults store.new ≡ S.put_faults store.old }
{
    let mut sums = CoverageMap::new(alloc);
    let mut left = files;
    'files: while let Some((file, rest)) = left.split_first() {
        match with_v8(alloc, store, sums, file.as_str()) {
            Ok(next) => sums = next,
            Err(fault) => return Err(fault),
        }
        left = rest;
    }
    Ok(sums)
}
