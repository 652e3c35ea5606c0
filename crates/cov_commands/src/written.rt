// What is put for source files: their instrumented texts with their maps, or their own texts.
ghost use Rattle.std.specs.Prelude.{◌≡◌, ◌<◌, ◌≤◌, ◌++◌, ◌∷◌, [], ℕ, List, true, length, Err, IfOk, IfErr, OnOk};
ghost use Rattle.std.specs.Option.{option_map, unwrap_or};
ghost use Rattle.js_tree.specs.Tree.{plain_file};
ghost use Rattle.js_scopes.specs.Accepted.{Accepted};
ghost use Rattle.cov_base.specs.Causes.{Rose};
ghost use Rattle.cov_run.specs.Loaded.{IsUnloaded, most};
ghost use Rattle.cov_run.specs.declared.fault.LoadFault.TheVariants as fault;
ghost use Rattle.cov_commands.specs.Instrument.{IsTextOf, StopsAt, map_for};
ghost use Rattle.cov_sim.specs.declared.instrumented.MappedText.{MappedText as Made};
ghost use Rattle.cov_commands.specs.private.Written.{IsWritten, AreWritten};

use cov_base::Store;
use cov_run::{LoadFault, read_mapped};
use cov_sim::{MappedText, Source, text_for};
use items::{Items, Memory, Text};
use js_scopes::Checked;
use source_map::InputMap;
use std::alloc::Global;

/// The most source files that are taken.
const MOST_SOURCES: usize = 1024;

/// What is put for a file.
#[derive(Drop)]
pub(crate) struct Written {
    /// The file's path.
    pub(crate) file: Text,
    /// What is put.
    pub(crate) text: Items<u8>,
    /// The text of its map, where one is put beside it.
    pub(crate) map: Option<Items<u8>>,
}

/// The file that ends the work, and why.
#[derive(Drop)]
pub(crate) struct Stopped<'a> {
    /// Its path.
    pub(crate) file: &'a str,
    /// Why.
    pub(crate) why: LoadFault,
}

/// What is put for each of these files, in their order, or the first that ends the work.
pub(crate) fn all_written<'a, S: Store>(
    alloc: Global,
    store: &mut S,
    files: &'a [Text],
) -> Result<Vec<Written>, Stopped<'a>>
    ensures written { IfOk result (λ list. AreWritten (S.held store.old) files.now list.items) }
    ensures within { IfOk result (λ list. length list.items ≤ most) }
    ensures stops { IfErr result (λ stopped. StopsAt (S.held store.old) 0 files.now stopped.file.now stopped.why) }
    ensures failed { IfErr result (λ stopped. (at : List ℕ) → stopped.why ≡ fault.ReadFault at → (before : S) × S.fails before at store.new) }
    ensures rose { IfErr result (λ stopped. (at : List ℕ) → stopped.why ≡ fault.ReadFault at → Rose (S.read_faults store.old) (S.read_faults store.new)) }
    ensures unchanged { S.held store.new ≡ S.held store.old }
    ensures puts { S.put_faults store.new ≡ S.put_faults store.old }
{
    let mut list = Vec::new(alloc);
    for file in files {
        match add(alloc, store, file.as_str(), &mut list) {
            Ok(()) => {}
            Err(why) => {
                return Err(Stopped {
                    file: file.as_str(),
                    why,
                });
            }
        }
    }
    Ok(list)
}

/// Adds what is put for the file at a path.
fn add<S: Store>(
    alloc: Global,
    store: &mut S,
    file: &str,
    list: &mut Vec<Written>,
) -> Result<(), LoadFault>
    ensures added { OnOk result ((written : Written) × (written.file ≡ file.now) × IsWritten (S.held store.old) written × (list.new.items ≡ list.old.items ++ written ∷ [])) }
    ensures room { OnOk result (length list.old.items < most) }
    ensures stops { IfErr result (λ why. (files : List (List ℕ)) → StopsAt (S.held store.old) (length list.old.items) (file.now ∷ files) file.now why) }
    ensures failed { (at : List ℕ) → result ≡ Err (fault.ReadFault at) → (before : S) × S.fails before at store.new }
    ensures rose { (at : List ℕ) → result ≡ Err (fault.ReadFault at) → Rose (S.read_faults store.old) (S.read_faults store.new) }
    ensures later { S.read_faults store.old ≤ S.read_faults store.new }
    ensures unchanged { S.held store.new ≡ S.held store.old }
    ensures puts { S.put_faults store.new ≡ S.put_faults store.old }
{
    let written = match written_at(alloc, store, file) {
        Ok(written) => written,
        Err(why) => return Err(why),
    };
    if list.len() >= MOST_SOURCES {
        return Err(LoadFault::TooManyFiles);
    }
    match list.push(written) {
        Ok(()) => Ok(()),
        Err(_) => Err(LoadFault::Memory),
    }
}

/// What is put for the file at a path.
fn written_at<S: Store>(alloc: Global, store: &mut S, file: &str) -> Result<Written, LoadFault>
    ensures file { IfOk result (λ written. written.file ≡ file.now) }
    ensures written { IfOk result (λ written. IsWritten (S.held store.old) written) }
    ensures unread { IfErr result (λ why. IsUnloaded (S.held store.old) file.now why) }
    ensures failed { (at : List ℕ) → result ≡ Err (fault.ReadFault at) → (before : S) × S.fails before at store.new }
    ensures rose { (at : List ℕ) → result ≡ Err (fault.ReadFault at) → Rose (S.read_faults store.old) (S.read_faults store.new) }
    ensures later { S.read_faults store.old ≤ S.read_faults store.new }
    ensures unchanged { S.held store.new ≡ S.held store.old }
    ensures puts { S.put_faults store.new ≡ S.put_faults store.old }
{
    match read_mapped(alloc, store, file) {
        Ok((text, tree, input)) => match written_for(alloc, file, &text, tree, input) {
            Ok(written) => Ok(written),
            Err(_) => Err(LoadFault::Memory),
        },
        Err(why) => Err(why),
    }
}

/// What is put for the source at a path, which has this text, this tree and this source map.
fn written_for(
    alloc: Global,
    file: &str,
    text: &js_text::Text,
    tree: Checked,
    input: Option<InputMap>,
) -> Result<Written, Memory>
    requires { Accepted text.now (plain_file tree) }
    ensures file { IfOk result (λ written. written.file ≡ file.now) }
    ensures text { IfOk result (λ written. IsTextOf file.now text.now input (plain_file tree) written.text) }
    ensures map { IfOk result (λ written. written.map ≡ map_for file.now text.now input (plain_file tree)) }
{
    let source = source_of(alloc, file, text.as_str().as_bytes(), input)?;
    written_of(alloc, source, tree)
}

/// The source at a path, with a copy of these bytes and this source map, whose coverage is counted.
fn source_of(
    alloc: Global,
    file: &str,
    bytes: &[u8],
    input: Option<InputMap>,
) -> Result<Source, Memory>
    ensures { IfOk result (λ source. source ≡ record { path = file.now; bytes = bytes.now; counted = true; input = input }) }
{
    Ok(Source {
        path: Text::from_str(alloc, file)?,
        bytes: Items::from_vec(Vec::from_slice(alloc, bytes)?),
        counted: true,
        input,
    })
}

/// What is put for a source of this tree.
fn written_of(alloc: Global, source: Source, tree: Checked) -> Result<Written, Memory>
    requires counted { source.counted ≡ true }
    requires accepted { Accepted source.bytes (plain_file tree) }
    ensures file { IfOk result (λ written. written.file ≡ source.path) }
    ensures text { IfOk result (λ written. IsTextOf source.path source.bytes source.input (plain_file tree) written.text) }
    ensures map { IfOk result (λ written. written.map ≡ map_for source.path source.bytes source.input (plain_file tree)) }
{
    let made = text_for(alloc, &source, tree)?;
    Ok(written_as(source, made))
}

/// What is put for a source that has this text with its map, or none as a comment takes it out.
fn written_as(source: Source, made: Option<MappedText>) -> Written
    ensures file { result.file ≡ source.path }
    ensures text { result.text ≡ unwrap_or (option_map (λ (m : Made). m.text) made) source.bytes }
    ensures map { result.map ≡ option_map (λ (m : Made). m.map) made }
{
    match made {
        Some(made) => Written {
            file: source.path,
            text: Items::from_vec(made.text.into_string().into_bytes()),
            map: Some(made.map),
        },
        None => Written {
            file: source.path,
            text: source.bytes,
            map: None,
        },
    }
}
