ghost use Rattle.std.specs.Prelude.{◌≡◌, ◌<◌, OnOk, fold, map, length};
ghost use Rattle.cov_merge.specs.Sums as spec;
ghost use Rattle.cov_merge.specs.private.Table.{tallies_of, added_at, AreFound};

use crate::by_key::ByKey;
use crate::counted::Counted;
use crate::tally::Tally;
use items::Memory;
use std::alloc::Global;
use std::collections::BTreeMap;

// Adds an entry to the sums at its key, or puts it last where its key is new. `places` has the
// place of each key in `tallies`. After want of memory neither is of use.
fn add<'a, T: Counted>(
    alloc: Global,
    tallies: &mut Vec<Tally<'a, T>>,
    places: &mut BTreeMap<ByKey<'a, T>, usize>,
    entry: &'a T,
) -> Result<(), Memory>
    requires { AreFound T.kind T.order places.old (tallies_of tallies.old.items) }
    ensures found { OnOk result (AreFound T.kind T.order places.new (tallies_of tallies.new.items)) }
    ensures added { OnOk result (tallies_of tallies.new.items ≡ spec.added T.kind (tallies_of tallies.old.items) entry.now) }
{
    match places.get(&ByKey(entry)).copied() {
        Some(place) => {
            add_at(tallies, place, entry);
            Ok(())
        }
        None => {
            let place = tallies.len();
            let sums = entry.first_sums(alloc)?;
            places.insert(ByKey(entry), place)?;
            tallies.push(Tally { entry, sums })?;
            Ok(())
        }
    }
}

// Adds an entry to the sums at a place.
fn add_at<T: Counted>(tallies: &mut Vec<Tally<'_, T>>, place: usize, entry: &T)
    requires { place < length tallies.old.items }
    ensures { tallies_of tallies.new.items ≡ added_at place (T.kind.counts entry.now) (tallies_of tallies.old.items) }
{
    let tally = &mut tallies[place];
    entry.add_to(&mut tally.sums);
}

// Adds the entries of a file.
pub(crate) fn add_all<'a, T: Counted>(
    alloc: Global,
    tallies: &mut Vec<Tally<'a, T>>,
    places: &mut BTreeMap<ByKey<'a, T>, usize>,
    entries: &'a [(u64, T)],
) -> Result<(), Memory>
    requires { AreFound T.kind T.order places.old (tallies_of tallies.old.items) }
    ensures found { OnOk result (AreFound T.kind T.order places.new (tallies_of tallies.new.items)) }
    ensures added { OnOk result (tallies_of tallies.new.items
        ≡ fold (spec.added T.kind) (tallies_of tallies.old.items) (map (λ entry. entry.1) entries.now)) }
{
    for (_, entry) in entries {
        add(alloc, tallies, places, entry)?;
    }
    Ok(())
}
