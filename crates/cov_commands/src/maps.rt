ghost use Rattle.std.specs.Prelude.{◌≡◌, ℕ, List, Err, IfOk};
ghost use Rattle.js_tree.specs.Tree.{plain_file};
ghost use Rattle.js_walk.specs.Constructs.{constructs_file};
ghost use Rattle.js_reading.specs.Reads.{Reads};
ghost use Rattle.cov_base.specs.Causes.{Rose};
ghost use Rattle.cov_maps.specs.Placed.{ArePlaced};
ghost use Rattle.cov_run.specs.declared.fault.LoadFault.TheVariants.{ReadFault};
ghost use Rattle.cov_words.specs.declared.command.SourceTask.TheVariants.{Maps};
ghost use Rattle.cov_commands.specs.Source as spec;

use crate::answer::Answer;
use cov_base::Store;
use cov_hash::hash_of;
use cov_hints::ignores_file;
use cov_maps::{Construct, constructs, zero};
use cov_object::{CoverageMap, write_json};
use cov_run::{LoadFault, read_source};
use items::{Items, Memory};
use js_meaning::End;
use js_scopes::Checked;
use js_text::Text;
use std::alloc::Global;

/// The constructs of a file, which isn't needed any more: it is dropped here.
fn constructs_of(alloc: Global, file: Checked) -> Result<Vec<Construct>, Memory>
    ensures { IfOk result (λ list. list.items ≡ constructs_file (plain_file file)) }
{
    constructs(alloc, &file)
}

/// What is printed for a file of these constructs: its zero FileCoverage and LF.
fn text_for(alloc: Global, path: &str, text: &Text, list: Vec<Construct>) -> Result<Vec<u8>, Memory>
    requires { ArePlaced list.items }
    ensures { IfOk result (λ printed. printed.items ≡ spec.zero_text path.now text.now list.items) }
{
    let hash = hash_of(alloc, text.as_str().as_bytes())?;
    let mut map = CoverageMap::new(alloc);
    map.insert(zero(alloc, path, hash.as_str(), list.as_slice())?)?;
    drop(list);
    let mut printed = write_json(alloc, &map)?;
    printed.push(b'\n')?;
    Ok(printed)
}

/// What is printed for a file: the empty map where one of its comments takes it out. The tree is
/// dropped before the text is made.
fn printed_for(alloc: Global, path: &str, text: &Text, file: Checked) -> Result<Vec<u8>, Memory>
    requires { Reads text.now (plain_file file) }
    ensures { IfOk result (λ printed. printed.items ≡ spec.maps_text path.now text.now (plain_file file)) }
{
    if ignores_file(file.file()) {
        Vec::from_slice(alloc, "{}\n".as_bytes())
    } else {
        let list = constructs_of(alloc, file)?;
        text_for(alloc, path, text, list)
    }
}

/// The answer of `maps`: the text of the file at a path by itself, and no end but that it is done.
pub(crate) fn maps<S: Store>(alloc: Global, path: &str, store: &mut S) -> Result<Answer, LoadFault>
    ensures comes { spec.ComesTo path.now (S.held store.old) Maps result }
    ensures failed { (at : List ℕ) → result ≡ Err (ReadFault at) → (before : S) × S.fails before at store.new }
    ensures rose { (at : List ℕ) → result ≡ Err (ReadFault at) → Rose (S.read_faults store.old) (S.read_faults store.new) }
    ensures unchanged { S.held store.new ≡ S.held store.old }
    ensures puts { S.put_faults store.new ≡ S.put_faults store.old }
{
    match read_source(alloc, store, path) {
        Ok((text, file)) => match printed_for(alloc, path, &text, file) {
            Ok(printed) => Ok(Answer {
                output: Items::from_vec(printed),
                end: End::Done,
                coverage: None,
            }),
            Err(_) => Err(LoadFault::Memory),
        },
        Err(fault) => Err(fault),
    }
}
