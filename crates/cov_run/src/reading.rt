ghost use Rattle.std.specs.Prelude.{◌≡◌, ◌≤◌, ℕ, List, Err, IfOk, IfErr};
ghost use Rattle.js_tree.specs.Plain as plain;
ghost use Rattle.js_tree.specs.Tree.{plain_file};
ghost use Rattle.js_scopes.specs.Accepted.{Accepted};
ghost use Rattle.cov_base.specs.Causes.{Rose};
ghost use Rattle.cov_sources.specs.Refused.{HasOnly, IsRefused};
ghost use Rattle.cov_run.specs.Loaded as spec;
ghost use Rattle.cov_run.specs.declared.fault.LoadFault.TheVariants.{ReadFault};
ghost use Rattle.cov_run.specs.private.Step.{IsFileFault};

use crate::fault::LoadFault;
use crate::input::input_at;
use crate::loader::bytes_at;
use cov_base::Store;
use cov_sources::{Why, accept};
use items::Text;
use js_scopes::Checked;
use js_text::TextFault;
use source_map::InputMap;
use std::alloc::Global;

/// The text and the tree of the source at a path, by itself, or why there is none.
///
/// # Errors
/// The first that comes: there is no such file, its read, its length, its acceptance. Never `TooManyFiles`. Want of memory may
/// come at any point.
pub fn read_source<S: Store>(
    alloc: Global,
    store: &mut S,
    path: &str,
) -> Result<(js_text::Text, Checked), LoadFault>
    ensures source { IfOk result (λ source. spec.IsSource (S.held store.old) path.now source.0 (plain_file source.1)) }
    ensures fault { IfErr result (λ fault. spec.IsUnread (S.held store.old) path.now fault) }
    ensures failed { (at : List ℕ) → result ≡ Err (ReadFault at) → S.fails store.old at store.new }
    ensures rose { (at : List ℕ) → result ≡ Err (ReadFault at) → Rose (S.read_faults store.old) (S.read_faults store.new) }
    ensures later { S.read_faults store.old ≤ S.read_faults store.new }
    ensures unchanged { S.held store.new ≡ S.held store.old }
    ensures puts { S.put_faults store.new ≡ S.put_faults store.old }
{
    match bytes_at(alloc, store, path) {
        Ok(bytes) => accepted_of(alloc, path, bytes),
        Err(fault) => Err(fault),
    }
}

/// The same, with the source map beside the file, which may be missing.
///
/// # Errors
/// As those of `read_source`, and then the first that comes of the read, the length and the form of its map, told with the map's path.
pub fn read_mapped<S: Store>(
    alloc: Global,
    store: &mut S,
    path: &str,
) -> Result<(js_text::Text, Checked, Option<InputMap>), LoadFault>
    ensures source { IfOk result (λ source. spec.IsSource (S.held store.old) path.now source.0 (plain_file source.1)) }
    ensures input { IfOk result (λ source. spec.HasInput (S.held store.old) path.now source.2) }
    ensures fault { IfErr result (λ fault. spec.IsUnloaded (S.held store.old) path.now fault) }
    ensures failed { (at : List ℕ) → result ≡ Err (ReadFault at) → (before : S) × S.fails before at store.new }
    ensures rose { (at : List ℕ) → result ≡ Err (ReadFault at) → Rose (S.read_faults store.old) (S.read_faults store.new) }
    ensures later { S.read_faults store.old ≤ S.read_faults store.new }
    ensures unchanged { S.held store.new ≡ S.held store.old }
    ensures puts { S.put_faults store.new ≡ S.put_faults store.old }
{
    match read_source(alloc, store, path) {
        Err(fault) => Err(fault),
        Ok((text, tree)) => match input_at(alloc, store, path) {
            Err(fault) => Err(fault),
            Ok(input) => Ok((text, tree, input)),
        },
    }
}

/// The text and the tree of the file at a path, which has these bytes.
fn accepted_of(
    alloc: Global,
    path: &str,
    bytes: Vec<u8>,
) -> Result<(js_text::Text, Checked), LoadFault>
    ensures text { IfOk result (λ source. source.0 ≡ bytes.items) }
    ensures accepted { IfOk result (λ source. Accepted bytes.items (plain_file source.1)) }
    ensures only { IfOk result (λ source. HasOnly bytes.items (plain_file source.1)) }
    ensures fault { IfErr result (λ fault. IsFileFault fault path.now bytes.items) }
{
    match accept(alloc, bytes)? {
        Ok(source) => Ok(source),
        Err(why) => Err(unaccepted(alloc, path, why)),
    }
}

/// That the file at a path is no source.
fn unaccepted(alloc: Global, path: &str, why: Why) -> LoadFault
    ensures { (bytes : List ℕ) → IsRefused why bytes → ((tree : plain.File) → Accepted bytes tree → ⊥) → IsFileFault result path.now bytes }
{
    let Ok(path) = Text::from_str(alloc, path) else {
        return LoadFault::Memory;
    };
    match why {
        Why::NoText(TextFault::TooLong { len: _ }) => LoadFault::TooLong { path },
        why => LoadFault::Refused { path, why },
    }
}
