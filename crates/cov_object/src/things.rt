ghost use Rattle.std.specs.Prelude.{◌≡◌, ◌≢◌, Ok, Err, option_map, option_and_then, IfOk, IfErr, IfSome};
ghost use Rattle.std.specs.Result.{result_map_both};
ghost use Rattle.cov_object.specs.Read as spec;
ghost use Rattle.cov_object.specs.Numbered.{Ascends};
ghost use Rattle.cov_object.specs.declared.fault.CoverageFault.TheVariants.{Memory as OutOfMemory, Count as miscount};
ghost use Rattle.cov_object.specs.private.ByMember.{all_told, things_told};

use crate::described::Described;
use crate::entries::Entries;
use crate::fault::{CoverageFault, bad_member};
use crate::numbered::Numbered;
use items::{Memory, Text};
use std::alloc::Global;
use std::collections::BTreeMap;

// The things of a map, each under its id, in the order of the ids; none where one of them is none.
fn all_things<T: Drop>(
    alloc: Global,
    entries: BTreeMap<u64, Option<T>>,
) -> Result<Option<Vec<(u64, T)>>, Memory>
    ensures value { IfOk result (λ things. option_map (λ things. things.items) things ≡ all_told entries.entries) }
    ensures order { IfOk result (λ things. IfSome things (λ things. Ascends things.items)) }
{
    let mut things = Vec::new(alloc);
    'entries: for (id, thing) in entries {
        match thing {
            Some(thing) => things.push((id, thing))?,
            None => return Ok(None),
        }
    }
    Ok(Some(things))
}

// The things that were kept, each under its id, in the order of the ids.
fn things_in<T: Drop>(
    alloc: Global,
    entries: Entries<Option<T>>,
) -> Result<Option<Vec<(u64, T)>>, Memory>
    ensures value { IfOk result (λ things. option_map (λ things. things.items) things ≡ option_and_then all_told entries) }
    ensures order { IfOk result (λ things. IfSome things (λ things. Ascends things.items)) }
{
    match entries.into_map() {
        Some(entries) => all_things(alloc, entries),
        None => Ok(None),
    }
}

// The counts that were kept, each under its id, in the order of the ids.
fn counts_in<C: Drop>(alloc: Global, entries: Entries<C>) -> Result<Option<Vec<(u64, C)>>, Memory>
    ensures { IfOk result (λ counts. option_map (λ counts. counts.items) counts ≡ entries) }
{
    match entries.into_map() {
        Some(entries) => Ok(Some(entries.into_iter().collect(alloc)?)),
        None => Ok(None),
    }
}

// Whether each thing has counts under its id, of its form, and there are no others.
fn all_fit<T: Described>(things: &[(u64, T)], counts: &[(u64, T::Counts)]) -> bool
    ensures { result ≡ spec.all_fit T.fits things.now counts.now }
{
    if things.len() != counts.len() {
        return false;
    }
    for place in 0..things.len() {
        let thing = &things[place];
        let count = &counts[place];
        if thing.0 != count.0 || !thing.1.is_fit(&count.1) {
            return false;
        }
    }
    true
}

// The things with their counts, or where the first count stands that is none.
fn all_counted<T: Described>(
    alloc: Global,
    things: Vec<(u64, T)>,
    counts: &[(u64, T::Counts)],
) -> Result<Result<Vec<(u64, T)>, (u64, Option<usize>)>, Memory>
    ensures { IfOk result (λ counted. result_map_both (λ things. things.items) (λ place. place) counted
        ≡ spec.all_counted T.counted things.items counts.now) }
{
    let mut counted = Vec::new(alloc);
    let mut place = 0usize;
    for (id, thing) in things {
        if place >= counts.len() {
            return Ok(Ok(counted));
        }
        match thing.with_counts(alloc, &counts[place].1)? {
            Ok(thing) => counted.push((id, thing))?,
            Err(path) => return Ok(Err((id, path))),
        }
        place += 1;
    }
    Ok(Ok(counted))
}

// The fault of a count that is none, or want of memory.
fn bad_count(
    alloc: Global,
    path: &str,
    counts: &str,
    id: u64,
    place: Option<usize>,
) -> CoverageFault
    ensures { result ≢ OutOfMemory → result ≡ miscount path.now (spec.count_name counts.now (id, place)) }
{
    let Ok(path) = Text::from_str(alloc, path) else {
        return CoverageFault::Memory;
    };
    let name = match place {
        Some(place) => format!(in alloc; "{counts}.{id}.{place}"),
        None => format!(in alloc; "{counts}.{id}"),
    };
    match name {
        Ok(name) => CoverageFault::Count {
            path,
            name: Text::from_string(name),
        },
        Err(_) => CoverageFault::Memory,
    }
}

// The things of a file, of what was kept of a map and of its counts.
pub(crate) fn read_things<T: Described>(
    alloc: Global,
    path: &str,
    descriptions: &str,
    counts: &str,
    things: Entries<Option<T>>,
    values: Entries<T::Counts>,
) -> Result<Numbered<T>, CoverageFault>
    ensures ok { IfOk result (λ found. things_told path.now descriptions.now counts.now T.fits T.counted things values ≡ Ok found) }
    ensures err { IfErr result (λ fault. fault ≢ OutOfMemory
        → things_told path.now descriptions.now counts.now T.fits T.counted things values ≡ Err fault) }
{
    let Some(things) = things_in(alloc, things)? else {
        return Err(bad_member(alloc, path, descriptions));
    };
    let Some(values) = counts_in(alloc, values)? else {
        return Err(bad_member(alloc, path, counts));
    };
    if !all_fit(&things, &values) {
        return Err(bad_member(alloc, path, counts));
    }
    match all_counted(alloc, things, &values)? {
        Ok(counted) => Ok(Numbered::from_ordered(counted)),
        Err((id, place)) => Err(bad_count(alloc, path, counts, id, place)),
    }
}
