ghost use Rattle.std.specs.Prelude.{◌≡◌, map, IfOk};
ghost use Rattle.cov_merge.specs.Kinds.{paths_with};
ghost use Rattle.cov_merge.specs.private.Sums.{AreCounts};

use crate::counted::Counted;
use crate::key::Counter;
use crate::order::{compare_locations, compare_paths};
use crate::sums::{add_paths, sums_of_paths};
use cov_object::{BranchCoverage, Count, FileCoverage, Location, PathCoverage};
use items::{Items, Memory, Text};
use std::alloc::Global;
use std::cmp::Ordering;

impl Counted for BranchCoverage {
    ghost use Rattle.cov_merge.specs.Kinds.{branches};
    ghost use Rattle.cov_merge.specs.private.Order.{branch_cmp};
    ghost use Rattle.cov_merge.specs.private.Orders.{branch_total, branch_tells};
    ghost use Rattle.cov_merge.specs.private.Lengths.{branches_long};

    ghost kind = { branches };

    ghost order = { branch_cmp };

    ghost total = { branch_total };

    ghost tells = { branch_tells };

    ghost long = { branches_long };

    fn entries(file: &FileCoverage) -> &[(u64, BranchCoverage)] {
        file.branches.as_slice()
    }

    fn compare(&self, other: &BranchCoverage) -> Ordering {
        let kinds = self.kind().cmp(other.kind());
        kinds
            .then_with(|| compare_locations(self.location(), other.location()))
            .then_with(|| compare_paths(self.paths(), other.paths()))
    }

    fn first_sums(&self, alloc: Global) -> Result<Vec<u64>, Memory> {
        sums_of_paths(alloc, self.paths())
    }

    fn add_to(&self, sums: &mut Vec<u64>) {
        add_paths(sums, self.paths());
    }

    fn with_counts(&self, alloc: Global, sums: &[u64]) -> Result<BranchCoverage, Memory> {
        let paths = counted_paths(alloc, self.paths(), sums)?;
        BranchCoverage::new(alloc, self.kind(), self.location(), paths)
    }

    fn counter(&self, alloc: Global, place: usize) -> Result<Counter, Memory> {
        Ok(Counter::Branch {
            kind: Text::from_str(alloc, self.kind())?,
            location: self.location(),
            locations: path_locations(alloc, self.paths())?,
            path: place,
        })
    }
}

// Where each path stands.
fn path_locations(alloc: Global, paths: &[PathCoverage]) -> Result<Items<Location>, Memory>
    ensures { IfOk result (λ locations. locations ≡ map (λ path. path.location) paths.now) }
{
    let mut locations = Items::new(alloc);
    for path in paths {
        locations.push(path.location)?;
    }
    Ok(locations)
}

// The paths with these sums as their counts, as many as there are of both.
fn counted_paths(
    alloc: Global,
    paths: &[PathCoverage],
    sums: &[u64],
) -> Result<Items<PathCoverage>, Memory>
    requires { AreCounts sums.now }
    ensures { IfOk result (λ counted. counted ≡ paths_with paths.now sums.now) }
{
    let mut counted = Vec::with_capacity(alloc, paths.len())?;
    let mut rest = sums;
    for path in paths {
        match rest.split_first() {
            None => return Ok(Items::from_vec(counted)),
            Some((sum, others)) => {
                counted.push(PathCoverage {
                    location: path.location,
                    count: Count::new(*sum),
                })?;
                rest = others;
            }
        }
    }
    Ok(Items::from_vec(counted))
}
