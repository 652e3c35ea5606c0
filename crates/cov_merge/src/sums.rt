ghost use Rattle.std.specs.Prelude.{◌≡◌, [], ◌∷◌, None, map, IfOk};
ghost use Rattle.cov_merge.specs.Sums as spec;
ghost use Rattle.cov_merge.specs.Entries.{too_large};
ghost use Rattle.cov_merge.specs.private.Sums.{AreCounts};

use cov_object::{Count, PathCoverage};
use items::Memory;
use std::alloc::Global;

/// 2^53: a count is below it.
const LIMIT: u64 = 9_007_199_254_740_992;

// A running sum with one more count: it stops where it first reaches 2^53.
fn running(sum: u64, count: Count) -> u64
    ensures { result ≡ spec.running sum count }
{
    if sum < LIMIT { sum + count.get() } else { sum }
}

// The sums of an entry that has one count.
pub(crate) fn sums_of_one(alloc: Global, count: Count) -> Result<Vec<u64>, Memory>
    ensures { IfOk result (λ sums. sums.items ≡ count ∷ []) }
{
    let mut sums = Vec::with_capacity(alloc, 1)?;
    sums.push(count.get())?;
    Ok(sums)
}

// The sums of an entry that has a count for each path.
pub(crate) fn sums_of_paths(alloc: Global, paths: &[PathCoverage]) -> Result<Vec<u64>, Memory>
    ensures { IfOk result (λ sums. sums.items ≡ map (λ path. path.count) paths.now) }
{
    let mut sums = Vec::with_capacity(alloc, paths.len())?;
    for path in paths {
        sums.push(path.count.get())?;
    }
    Ok(sums)
}

// Adds a count to a running sum; there is one for each count.
pub(crate) fn add_one(sums: &mut Vec<u64>, count: Count)
    ensures { sums.new.items ≡ spec.plus sums.old.items (count ∷ []) }
{
    sums.truncate(1);
    if let Some(sum) = sums.first_mut() {
        *sum = running(*sum, count);
    }
}

// Adds the counts of paths to running sums, as far as there are both.
pub(crate) fn add_paths(sums: &mut Vec<u64>, paths: &[PathCoverage])
    ensures { sums.new.items ≡ spec.plus sums.old.items (map (λ path. path.count) paths.now) }
{
    sums.truncate(paths.len());
    for place in 0..sums.len() {
        sums[place] = running(sums[place], paths[place].count);
    }
}

// The first sum that is 2^53 or more, and its place.
pub(crate) fn first_too_large(sums: &[u64]) -> Option<(usize, u64)>
    ensures found { result ≡ too_large 0 sums.now }
    ensures counts { result ≡ None → AreCounts sums.now }
{
    for (place, sum) in sums.iter().enumerate() {
        if *sum >= LIMIT {
            return Some((place, *sum));
        }
    }
    None
}
