ghost use Rattle.std.specs.Prelude.{◌≡◌, ◌+◌, ◌<◌, ◌≤◌, ℕ, List, [], map, length, Some, Ok, Err, IfOk, IfErr, OnOk};
ghost use Rattle.std.specs.String.{string_bytes};
ghost use Rattle.js_tree.specs.Tree.{plain_file};
ghost use Rattle.js_scopes.specs.Accepted.{Accepted};
ghost use Rattle.cov_base.specs.Causes.{Rose};
ghost use Rattle.cov_sources.specs.Refused.{HasOnly};
ghost use Rattle.cov_run.specs.Asked.{before_others};
ghost use Rattle.cov_run.specs.Loaded as spec;
ghost use Rattle.cov_run.specs.declared.fault.LoadFault.TheVariants.{ReadFault};
ghost use Rattle.cov_run.specs.private.Step.{Goes, GoesOn, GoesWith, Finds, Stops, StopsAt, StopsWith, IsUnfound, IsFileFault, IsReadFailure};

use crate::fault::LoadFault;
use crate::input::input_at;
use crate::queue::Queue;
use cov_base::{Failed, Store};
use cov_sources::{Source, Sources, Why, accept};
use items::{Items, Text};
use js_scopes::Checked;
use js_text::TextFault;
use path_globs::matches;
use source_map::InputMap;
use std::alloc::Global;

/// How many sources a program may have.
const MOST_SOURCES: usize = 1024;

/// Loads the sources of the program that begins with the file at the path `entry`: that file, and
/// then, breadth first and in the order of each file's text, every file that `require` is called
/// for by a string and that the store holds. Each file is read once, and after it the source map beside
/// it, which may be missing. A file is counted where none of the patterns `exclude` stands for its path.
///
/// # Errors
/// The first that comes of what each file in this order gives: its read, its length, its acceptance,
/// the read, the length and the form of its map, which are told with the map's path, the number of
/// sources. Want of memory may come at any point.
pub fn load<S: Store>(
    alloc: Global,
    store: &mut S,
    entry: &str,
    exclude: &[String],
) -> Result<Sources, LoadFault>
    ensures sources { IfOk result (λ sources. spec.Loaded (S.held store.old) entry.now (map string_bytes exclude.now) (Ok sources.items)) }
    ensures fault { IfErr result (λ fault. spec.Loaded (S.held store.old) entry.now (map string_bytes exclude.now) (Err fault)) }
    ensures failed { (at : List ℕ) → result ≡ Err (ReadFault at) → (before : S) × S.fails before at store.new }
    ensures rose { (at : List ℕ) → result ≡ Err (ReadFault at) → Rose (S.read_faults store.old) (S.read_faults store.new) }
    ensures unchanged { S.held store.new ≡ S.held store.old }
    ensures puts { S.put_faults store.new ≡ S.put_faults store.old }
{
    let mut queue = Queue::new(alloc, entry)?;
    let mut sources = Vec::new(alloc);
    match take_entry(alloc, store, entry, exclude, &mut queue, &mut sources) {
        Ok(()) => {}
        Err(fault) => return Err(fault),
    }
    'files: loop {
        match next_held(alloc, store, &mut queue) {
            Ok(Some((path, bytes))) => {
                match take(alloc, store, path, bytes, exclude, &mut queue, &mut sources) {
                    Ok(()) => {}
                    Err(fault) => return Err(fault),
                }
            }
            Ok(None) => return Ok(sources),
            Err(fault) => return Err(fault),
        }
    }
}

/// Takes the file at the path of the entry, which is the first, to the sources.
fn take_entry<S: Store>(
    alloc: Global,
    store: &mut S,
    entry: &str,
    exclude: &[String],
    queue: &mut Queue,
    sources: &mut Sources,
) -> Result<(), LoadFault>
    requires { sources.old.items ≡ [] }
    ensures goes { OnOk result (GoesOn (S.held store.old) (map string_bytes exclude.now) entry.now queue.old sources.new.items queue.new) }
    ensures some { OnOk result (0 < length sources.new.items) }
    ensures fault { IfErr result (λ fault. spec.Loads (S.held store.old) (map string_bytes exclude.now) [] (before_others entry.now queue.old) (Err fault)) }
    ensures failed { (at : List ℕ) → result ≡ Err (ReadFault at) → (before : S) × S.fails before at store.new }
    ensures rose { (at : List ℕ) → result ≡ Err (ReadFault at) → Rose (S.read_faults store.old) (S.read_faults store.new) }
    ensures later { S.read_faults store.old ≤ S.read_faults store.new }
    ensures unchanged { S.held store.new ≡ S.held store.old }
    ensures puts { S.put_faults store.new ≡ S.put_faults store.old }
{
    let path = Text::from_str(alloc, entry)?;
    match bytes_at(alloc, store, entry) {
        Ok(bytes) => take(alloc, store, path, bytes, exclude, queue, sources),
        Err(fault) => Err(fault),
    }
}

/// The bytes of the file at a path.
pub(crate) fn bytes_at<S: Store>(
    alloc: Global,
    store: &mut S,
    path: &str,
) -> Result<Vec<u8>, LoadFault>
    ensures held { IfOk result (λ bytes. spec.Holds (S.held store.old) path.now (Some bytes.items)) }
    ensures fault { IfErr result (λ fault. IsUnfound (S.held store.old) fault path.now) }
    ensures failed { (at : List ℕ) → result ≡ Err (ReadFault at) → S.fails store.old at store.new }
    ensures rose { (at : List ℕ) → result ≡ Err (ReadFault at) → Rose (S.read_faults store.old) (S.read_faults store.new) }
    ensures later { S.read_faults store.old ≤ S.read_faults store.new }
    ensures unchanged { S.held store.new ≡ S.held store.old }
    ensures puts { S.put_faults store.new ≡ S.put_faults store.old }
{
    match store.read(path) {
        Ok(Some(bytes)) => Ok(bytes),
        Ok(None) => Err(LoadFault::NoFile),
        Err(Failed::Device) => Err(read_failed(alloc, path)),
        Err(Failed::Memory) => Err(LoadFault::Memory),
    }
}

/// That the read of the file at a path failed.
fn read_failed(alloc: Global, path: &str) -> LoadFault
    ensures { IsReadFailure result path.now }
{
    match Text::from_str(alloc, path) {
        Ok(path) => LoadFault::ReadFault { path },
        Err(_) => LoadFault::Memory,
    }
}

/// The next file that waits and is held; those before it that aren't are passed over.
fn next_held<S: Store>(
    alloc: Global,
    store: &mut S,
    queue: &mut Queue,
) -> Result<Option<(Text, Vec<u8>)>, LoadFault>
    ensures found { IfOk result (λ found. Finds (S.held store.old) queue.old queue.new found) }
    ensures fault { IfErr result (λ fault. StopsAt (S.held store.old) queue.old fault) }
    ensures failed { (at : List ℕ) → result ≡ Err (ReadFault at) → (before : S) × S.fails before at store.new }
    ensures rose { (at : List ℕ) → result ≡ Err (ReadFault at) → Rose (S.read_faults store.old) (S.read_faults store.new) }
    ensures later { S.read_faults store.old ≤ S.read_faults store.new }
    ensures unchanged { S.held store.new ≡ S.held store.old }
    ensures puts { S.put_faults store.new ≡ S.put_faults store.old }
{
    'paths: loop {
        let Some(path) = queue.next(alloc)? else {
            return Ok(None);
        };
        match store.read(path.as_str()) {
            Ok(Some(bytes)) => return Ok(Some((path, bytes))),
            Ok(None) => {}
            Err(Failed::Device) => return Err(LoadFault::ReadFault { path }),
            Err(Failed::Memory) => return Err(LoadFault::Memory),
        }
    }
}

/// Takes the file at a path, which has these bytes, to the sources, with the source map beside it, and what it asks for to the queue.
fn take<S: Store>(
    alloc: Global,
    store: &mut S,
    path: Text,
    bytes: Vec<u8>,
    exclude: &[String],
    queue: &mut Queue,
    sources: &mut Sources,
) -> Result<(), LoadFault>
    ensures goes { OnOk result (GoesWith (S.held store.old) (map string_bytes exclude.now) path bytes.items sources.old.items queue.old sources.new.items queue.new) }
    ensures more { OnOk result ((length sources.old.items < spec.most) × (length sources.new.items ≡ length sources.old.items + 1)) }
    ensures fault { IfErr result (λ fault. StopsWith (S.held store.old) (map string_bytes exclude.now) path bytes.items sources.old.items queue.old fault) }
    ensures failed { (at : List ℕ) → result ≡ Err (ReadFault at) → (before : S) × S.fails before at store.new }
    ensures rose { (at : List ℕ) → result ≡ Err (ReadFault at) → Rose (S.read_faults store.old) (S.read_faults store.new) }
    ensures later { S.read_faults store.old ≤ S.read_faults store.new }
    ensures unchanged { S.held store.new ≡ S.held store.old }
    ensures puts { S.put_faults store.new ≡ S.put_faults store.old }
{
    match tree_of(alloc, path, bytes.as_slice()) {
        Err(fault) => Err(fault),
        Ok((path, tree)) => match input_at(alloc, store, path.as_str()) {
            Err(fault) => Err(fault),
            Ok(input) => keep(alloc, path, bytes, tree, input, exclude, queue, sources),
        },
    }
}

/// Takes a source to the others, and what it asks for to the queue.
fn keep(
    alloc: Global,
    path: Text,
    bytes: Vec<u8>,
    tree: Checked,
    input: Option<InputMap>,
    exclude: &[String],
    queue: &mut Queue,
    sources: &mut Sources,
) -> Result<(), LoadFault>
    requires accepted { Accepted bytes.items (plain_file tree) }
    requires only { HasOnly bytes.items (plain_file tree) }
    ensures goes { OnOk result (Goes (map string_bytes exclude.now) path bytes.items input sources.old.items queue.old sources.new.items queue.new) }
    ensures more { OnOk result ((length sources.old.items < spec.most) × (length sources.new.items ≡ length sources.old.items + 1)) }
    ensures fault { IfErr result (λ fault. Stops (map string_bytes exclude.now) path bytes.items input sources.old.items queue.old fault) }
    ensures read { (at : List ℕ) → result ≡ Err (ReadFault at) → ⊥ }
{
    if sources.len() >= MOST_SOURCES {
        return Err(LoadFault::TooManyFiles);
    }
    queue.ask_all(alloc, path.as_str(), tree.requires_())?;
    let counted = is_counted(path.as_str(), exclude);
    sources.push(Source {
        path,
        bytes: Items::from_vec(bytes),
        counted,
        input,
    })?;
    Ok(())
}

/// The tree of the file at a path, and the path again.
fn tree_of(alloc: Global, path: Text, bytes: &[u8]) -> Result<(Text, Checked), LoadFault>
    ensures path { IfOk result (λ found. found.0 ≡ path) }
    ensures accepted { IfOk result (λ found. Accepted bytes.now (plain_file found.1)) }
    ensures only { IfOk result (λ found. HasOnly bytes.now (plain_file found.1)) }
    ensures fault { IfErr result (λ fault. IsFileFault fault path bytes.now) }
{
    match accept(alloc, Vec::from_slice(alloc, bytes)?)? {
        Ok((_, tree)) => Ok((path, tree)),
        Err(Why::NoText(TextFault::TooLong { len: _ })) => Err(LoadFault::TooLong { path }),
        Err(why) => Err(LoadFault::Refused { path, why }),
    }
}

/// Whether a file is counted: no pattern stands for its path.
fn is_counted(path: &str, exclude: &[String]) -> bool
    ensures { result ≡ spec.is_counted (map string_bytes exclude.now) path.now }
{
    for pattern in exclude {
        if matches(pattern.as_str(), path) {
            return false;
        }
    }
    true
}
