ghost use Rattle.std.specs.Prelude.{◌≡◌, [], Some, None, option_map, IfOk};
ghost use Rattle.serde_json.specs.View.{members_view};
ghost use Rattle.cov_object.specs.private.ByMember.{entries_kept, with_entry};

use crate::entry::Entry;
use crate::ids::id_of;
use items::Memory;
use serde_json::{Map, Value};
use std::alloc::Global;
use std::collections::BTreeMap;
use std::marker::Model;

// What is kept of the entries of one of a file's maps, by their ids; none where there is no object
// whose keys are ids. Contracts see it as the list of the ids, each beside what is kept.
#[derive(Drop)]
pub(crate) struct Entries<E> {
    found: Option<BTreeMap<u64, E>>,
}

impl<E> Model for Entries<E> {
    ghost use Rattle.std.specs.Prelude.{Option, List, ℕ, option_map};
    ghost use Rattle.std.specs.Coded.{coded_option, coded_list, coded×, coded_ℕ};

    ghost Value = { Option (List (ℕ × E)) };

    ghost coded = { coded_option (coded_list (coded× coded_ℕ E.code)) };

    ghost view = { λ entries. option_map (λ found. found.entries) entries.found };
}

impl<E> Entries<E> {
    // No object whose keys are ids.
    pub fn none() -> Entries<E>
        ensures { result ≡ None }
    {
        Entries { found: None }
    }

    // No entries, which takes no memory.
    pub fn new(alloc: Global) -> Entries<E>
        ensures { result ≡ Some [] }
    {
        Entries {
            found: Some(BTreeMap::new(alloc)),
        }
    }

    // The entries of a map.
    fn from_map(found: BTreeMap<u64, E>) -> Entries<E>
        ensures { result ≡ Some found.entries }
    {
        Entries { found: Some(found) }
    }

    // The map.
    pub fn into_map(self) -> Option<BTreeMap<u64, E>>
        ensures { option_map (λ found. found.entries) result ≡ self }
    {
        let Entries { found } = self;
        found
    }
}

impl<E: Drop> Entries<E> {
    // With one entry more, in the place of an earlier one of its key.
    pub fn with(self, key: &str, entry: E) -> Result<Entries<E>, Memory>
        ensures { IfOk result (λ entries. entries ≡ with_entry key.now entry self) }
    {
        let Some(id) = id_of(key) else {
            return Ok(Entries::none());
        };
        let Some(mut found) = self.into_map() else {
            return Ok(Entries::none());
        };
        drop(found.insert(id, entry)?);
        Ok(Entries::from_map(found))
    }
}

// What is kept of an object's members.
pub(crate) fn entries_in<E: Entry>(
    alloc: Global,
    members: &Map<String, Value>,
) -> Result<Entries<E>, Memory>
    ensures { IfOk result (λ entries. entries ≡ entries_kept E.tells (members_view members.now.entries)) }
{
    let mut found = Entries::new(alloc);
    for (key, value) in members.iter() {
        let entry = E::from_value(alloc, value)?;
        found = found.with(key.as_str(), entry)?;
    }
    Ok(found)
}
