ghost use Rattle.std.specs.Prelude.{◌≡◌, map, length, IfOk};
ghost use Rattle.cov_merge.specs.Answer.{Answers};
ghost use Rattle.cov_merge.specs.Sums as spec;
ghost use Rattle.cov_merge.specs.Entries.{entries_of, merged_entries, total};
ghost use Rattle.cov_merge.specs.private.Table.{tallies_of};

use crate::counted::Counted;
use crate::fault::MergeFault;
use crate::key::Key;
use crate::sums::first_too_large;
use crate::table::add_all;
use crate::tally::Tally;
use cov_object::FileCoverage;
use items::{Items, Memory, Text};
use std::alloc::Global;
use std::collections::BTreeMap;

// The entries of one kind in files at a path, summed by their keys.
pub(crate) fn merge_entries<'a, T: Counted>(
    alloc: Global,
    path: &str,
    files: &'a [&'a FileCoverage],
) -> Result<Items<T>, MergeFault>
    ensures { Answers result (merged_entries T.kind path.now (map (λ file. file.now) files.now)) }
{
    let tallies = sum_up(alloc, files)?;
    let mut entries = Items::new(alloc);
    for tally in &tallies {
        let entry = total_of(alloc, path, tally)?;
        entries.push(entry)?;
    }
    Ok(entries)
}

// The entries of one kind by their keys, in the order in which the keys first appear.
fn sum_up<'a, T: Counted>(
    alloc: Global,
    files: &'a [&'a FileCoverage],
) -> Result<Vec<Tally<'a, T>>, Memory>
    ensures { IfOk result (λ tallies. tallies_of tallies.items ≡ spec.summed T.kind (entries_of T.kind (map (λ file. file.now) files.now))) }
{
    let mut tallies = Vec::new(alloc);
    let mut places = BTreeMap::new(alloc);
    for file in files {
        add_all(alloc, &mut tallies, &mut places, T::entries(file))?;
    }
    Ok(tallies)
}

// An entry with its sums.
fn total_of<T: Counted>(alloc: Global, path: &str, tally: &Tally<'_, T>) -> Result<T, MergeFault>
    requires { length tally.now.sums.items ≡ length (T.kind.counts tally.now.entry.now) }
    ensures { Answers result (total T.kind path.now (tally.now.entry.now, tally.now.sums.items)) }
{
    match first_too_large(tally.sums.as_slice()) {
        None => Ok(tally.entry.with_counts(alloc, tally.sums.as_slice())?),
        Some((place, sum)) => Err(MergeFault::CountTooLarge {
            key: Key {
                path: Text::from_str(alloc, path)?,
                counter: tally.entry.counter(alloc, place)?,
            },
            sum,
        }),
    }
}
