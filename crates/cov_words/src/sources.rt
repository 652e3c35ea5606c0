// The source paths that words name, each once.
ghost use Rattle.std.specs.Prelude.{◌≡◌, map, IfOk, OnOk};
ghost use Rattle.std.specs.String.{string_bytes};
ghost use Rattle.clap.specs.Words.{found_of, rows_of};
ghost use Rattle.cov_words.specs.Words as spec;
ghost use Rattle.cov_words.specs.private.Known.{HaveSame};

use crate::arguments::words_in;
use clap::ArgMatches;
use items::{Items, Memory, Text};
use path_globs::source_path;
use std::alloc::Global;
use std::collections::BTreeSet;

/// The source paths that the words found for FILE... name, `None` where one of them names none.
pub(crate) fn sources_in(alloc: Global, own: &ArgMatches<'_>) -> Result<Option<Items<Text>>, Memory>
    ensures { IfOk result (λ found. found ≡ spec.sources_in (rows_of (found_of own.now))) }
{
    match words_in(own, "file") {
        Some(words) => sources_of(alloc, words),
        None => Ok(None),
    }
}

/// The source paths that these words name.
fn sources_of(alloc: Global, words: &[&str]) -> Result<Option<Items<Text>>, Memory>
    ensures { IfOk result (λ found. found ≡ spec.sources_of (map (λ word. word.now) words.now)) }
{
    let mut paths = Items::new(alloc);
    let mut known = BTreeSet::new(alloc);
    for word in words {
        match source_path(alloc, word)? {
            Some(path) => put(alloc, &mut paths, &mut known, path)?,
            None => return Ok(None),
        }
    }
    Ok(Some(paths))
}

/// Puts a path at the end, where it isn't known.
fn put(
    alloc: Global,
    paths: &mut Items<Text>,
    known: &mut BTreeSet<String>,
    path: Text,
) -> Result<(), Memory>
    requires { HaveSame (map string_bytes known.old.keys) paths.old }
    ensures paths { OnOk result (paths.new ≡ spec.with_path paths.old path) }
    ensures same { OnOk result (HaveSame (map string_bytes known.new.keys) paths.new) }
{
    if known.contains(path.as_str()) {
        return Ok(());
    }
    let key = String::from_str(alloc, path.as_str())?;
    known.insert(key)?;
    paths.push(path)?;
    Ok(())
}
