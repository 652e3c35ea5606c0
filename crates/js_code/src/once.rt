ghost use Rattle.std.specs.Prelude.{◌≡◌, ℕ, List, IfOk};
ghost use Rattle.js_meaning.specs.Scopes.{once, stands_in};
ghost use Rattle.js_code.specs.private.Seen.{seen};

use items::{Items, Memory};
use js_names::SharedName;
use std::alloc::Global;
use std::collections::BTreeSet;

/// The names, each once, without those before.
pub fn once(
    alloc: Global,
    before: &[SharedName],
    names: &[SharedName],
) -> Result<Items<SharedName>, Memory>
    ensures { IfOk result (λ kept. kept ≡ once before.now names.now) }
{
    let mut seen = seen_of(alloc, before)?;
    let mut kept = Items::new(alloc);
    for name in names {
        if seen.insert(name.as_str())? {
            kept.push(name.copy()?)?;
        }
    }
    Ok(kept)
}

/// The set of some names.
fn seen_of<'a>(alloc: Global, names: &'a [SharedName]) -> Result<BTreeSet<&'a str>, Memory>
    ensures { IfOk result (λ set. (q : List ℕ) → stands_in q (seen set) ≡ stands_in q names.now) }
{
    let mut seen = BTreeSet::new(alloc);
    for name in names {
        seen.insert(name.as_str())?;
    }
    Ok(seen)
}
