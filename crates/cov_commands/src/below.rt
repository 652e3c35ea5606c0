// Texts that are put below a folder, and their maps.
ghost use Rattle.std.specs.Prelude.{◌≡◌, Some, string_bytes, IfOk, OnOk, OnErr};
ghost use Rattle.cov_base.specs.Causes.{HasCause};
ghost use Rattle.cov_base.specs.Store.{BothTell, PutsAt};
ghost use Rattle.cov_commands.specs.Instrument as spec;
ghost use Rattle.cov_commands.specs.private.Written.{IsWritten, PutsBoth, PutsMap, files_of};

use crate::written::Written;
use cov_base::{Failed, Store};
use items::{Items, Memory};
use std::alloc::Global;

/// Puts these texts below a folder, in their order, each with its map beside it, until a put fails.
pub(crate) fn put_all<S: Store>(
    alloc: Global,
    store: &mut S,
    out: &str,
    list: &[Written],
) -> Result<(), Failed>
    requires written { spec.Each (IsWritten (S.held store.old)) list.now }
    requires paths { spec.Each spec.IsSourcePath (files_of list.now) }
    ensures all { OnOk result (BothTell (S.held store.old) (S.held store.new) (spec.PutsAll out.now (files_of list.now))) }
    ensures some { OnErr result (BothTell (S.held store.old) (S.held store.new) (spec.PutsSome out.now (files_of list.now))) }
    ensures cause { HasCause (S.put_faults store.old) (S.put_faults store.new) result }
{
    for written in list {
        match put_both(alloc, store, out, written) {
            Ok(()) => {}
            Err(failed) => return Err(failed),
        }
    }
    Ok(())
}

/// Puts a text below a folder, and then its map.
fn put_both<S: Store>(
    alloc: Global,
    store: &mut S,
    out: &str,
    written: &Written,
) -> Result<(), Failed>
    ensures value { PutsBoth out.now written.now (S.held store.old) (S.held store.new) result }
    ensures cause { HasCause (S.put_faults store.old) (S.put_faults store.new) result }
{
    match put_text(alloc, store, out, written) {
        Ok(()) => put_map(alloc, store, out, written),
        Err(failed) => Err(failed),
    }
}

/// Puts a text below a folder.
fn put_text<S: Store>(
    alloc: Global,
    store: &mut S,
    out: &str,
    written: &Written,
) -> Result<(), Failed>
    ensures value { PutsAt (spec.path_below out.now written.now.file) written.now.text (S.held store.old) (S.held store.new) result }
    ensures cause { HasCause (S.put_faults store.old) (S.put_faults store.new) result }
{
    let path = path_below(alloc, out, written.file.as_str())?;
    store.put(path.as_str(), written.text.as_slice())
}

/// Puts the map of a text, where it has one, beside it.
fn put_map<S: Store>(
    alloc: Global,
    store: &mut S,
    out: &str,
    written: &Written,
) -> Result<(), Failed>
    ensures value { PutsMap (spec.map_below out.now written.now.file) written.now.map (S.held store.old) (S.held store.new) result }
    ensures cause { HasCause (S.put_faults store.old) (S.put_faults store.new) result }
{
    match &written.map {
        Some(map) => put_map_at(alloc, store, out, written.file.as_str(), map),
        None => Ok(()),
    }
}

fn put_map_at<S: Store>(
    alloc: Global,
    store: &mut S,
    out: &str,
    file: &str,
    map: &Items<u8>,
) -> Result<(), Failed>
    ensures value { PutsAt (spec.map_below out.now file.now) map.now (S.held store.old) (S.held store.new) result }
    ensures cause { HasCause (S.put_faults store.old) (S.put_faults store.new) result }
{
    let path = map_below(alloc, out, file)?;
    store.put(path.as_str(), map.as_slice())
}

/// The path of a file below a folder.
fn path_below(alloc: Global, out: &str, file: &str) -> Result<String, Memory>
    ensures { IfOk result (λ path. string_bytes path ≡ spec.path_below out.now file.now) }
{
    format!(in alloc; "{out}/{file}")
}

/// The path of a file's map below a folder.
fn map_below(alloc: Global, out: &str, file: &str) -> Result<String, Memory>
    ensures { IfOk result (λ path. string_bytes path ≡ spec.map_below out.now file.now) }
{
    format!(in alloc; "{out}/{file}.map")
}
