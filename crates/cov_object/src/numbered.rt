ghost use Rattle.std.specs.Prelude.{◌≡◌, [], IfOk};
ghost use Rattle.std.specs.List.{enumerate_from};
ghost use Rattle.cov_object.specs.Numbered.{Ascends};

use items::Memory;
use std::alloc::Global;
use std::collections::BTreeMap;
use std::marker::Model;

/// Things that are numbered: each has an id of its own, and they stand in the order of their ids.
/// Ids may be left out. Contracts see it as the list of the ids, each beside its thing.
#[derive(Debug, Drop)]
pub struct Numbered<T> {
    things: Vec<(u64, T)>,
}

impl<T> Model for Numbered<T> {
    ghost use Rattle.std.specs.Prelude.{List, ℕ};
    ghost use Rattle.std.specs.Coded.{coded_list, coded×, coded_ℕ};
    ghost use Rattle.cov_object.specs.Numbered.{Ascends};

    ghost Value = { List (ℕ × T) };

    ghost coded = { coded_list (coded× coded_ℕ T.code) };

    ghost view = { λ list. list.things.items };

    ghost invariant = { λ list. Ascends list.things.items };
}

impl<T> Numbered<T> {
    /// No things, which takes no memory.
    pub fn new(alloc: Global) -> Numbered<T>
        ensures { result ≡ [] }
    {
        Numbered {
            things: Vec::new(alloc),
        }
    }

    // Things that stand in the order of their ids.
    pub(crate) fn from_ordered(things: Vec<(u64, T)>) -> Numbered<T>
        requires { Ascends things.items }
        ensures { result ≡ things.items }
    {
        Numbered { things }
    }

    /// The things, each beside its id, lent.
    pub fn as_slice(&self) -> &[(u64, T)]
        ensures value { result.now ≡ self.now }
        ensures order { Ascends self.now }
    {
        self.things.as_slice()
    }
}

impl<T: Drop> Numbered<T> {
    /// The things of a list, numbered from 0 as they stand there.
    pub fn from_vec(alloc: Global, list: Vec<T>) -> Result<Numbered<T>, Memory>
        ensures { IfOk result (λ things. things ≡ enumerate_from 0 list.items) }
    {
        let mut things = Vec::new(alloc);
        for thing in list {
            let id = things.len() as u64;
            things.push((id, thing))?;
        }
        Ok(Numbered { things })
    }

    /// The things of a map, each under the id that it has there.
    pub fn from_map(alloc: Global, map: BTreeMap<u64, T>) -> Result<Numbered<T>, Memory>
        ensures { IfOk result (λ things. things ≡ map.entries) }
    {
        Ok(Numbered {
            things: map.into_iter().collect(alloc)?,
        })
    }
}
