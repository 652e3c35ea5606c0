ghost use Rattle.std.specs.Prelude.{◌≡◌, Bool, Option, Result, ℕ, IfOk};
ghost use Rattle.std.specs.Result.{result_map_both};
ghost use Rattle.cov_object.specs.Read as spec;
ghost use Rattle.cov_object.specs.private.ByMember.{fits_any, paths_fit, paths_with, branch_kept};

use crate::branch::BranchCoverage;
use crate::file::{FunctionCoverage, PathCoverage, StatementCoverage};
use crate::number::Count;
use items::{Items, Memory};
use std::alloc::Global;

// What is described in one map and counted in another: a statement, a function or a branch.
pub(crate) trait Described: Sized + Drop {
    // What is kept of its counts.
    type Counts: Drop;

    // whether the counts are of the thing's form
    ghost fits: { Self → Self.Counts → Bool };

    // the thing with its counts, or which of them is none
    ghost counted: { Self → Self.Counts → Result Self (Option ℕ) };

    // Whether the counts are of the thing's form.
    fn is_fit(&self, counts: &Self::Counts) -> bool
        ensures { result ≡ fits self.now counts.now };

    // The thing with its counts, or which of them is none.
    fn with_counts(
        self,
        alloc: Global,
        counts: &Self::Counts,
    ) -> Result<Result<Self, Option<usize>>, Memory>
        ensures { IfOk result (λ thing. thing ≡ counted self counts.now) };
}

impl Described for StatementCoverage {
    type Counts = Option<Count>;

    ghost fits = { fits_any };

    ghost counted = { spec.statement_with };

    fn is_fit(&self, _counts: &Option<Count>) -> bool {
        true
    }

    fn with_counts(
        self,
        _alloc: Global,
        counts: &Option<Count>,
    ) -> Result<Result<StatementCoverage, Option<usize>>, Memory> {
        match *counts {
            Some(count) => Ok(Ok(StatementCoverage {
                location: self.location,
                count,
            })),
            None => Ok(Err(None)),
        }
    }
}

impl Described for FunctionCoverage {
    type Counts = Option<Count>;

    ghost fits = { fits_any };

    ghost counted = { spec.function_with };

    fn is_fit(&self, _counts: &Option<Count>) -> bool {
        true
    }

    fn with_counts(
        self,
        _alloc: Global,
        counts: &Option<Count>,
    ) -> Result<Result<FunctionCoverage, Option<usize>>, Memory> {
        match *counts {
            Some(count) => {
                let FunctionCoverage {
                    name,
                    declaration,
                    location,
                    ..
                } = self;
                Ok(Ok(FunctionCoverage {
                    name,
                    declaration,
                    location,
                    count,
                }))
            }
            None => Ok(Err(None)),
        }
    }
}

impl Described for BranchCoverage {
    type Counts = Option<Items<Option<Count>>>;

    ghost fits = { paths_fit };

    ghost counted = { branch_kept };

    fn is_fit(&self, counts: &Option<Items<Option<Count>>>) -> bool {
        match counts {
            Some(counts) => counts.len() == self.paths().len(),
            None => false,
        }
    }

    fn with_counts(
        self,
        alloc: Global,
        counts: &Option<Items<Option<Count>>>,
    ) -> Result<Result<BranchCoverage, Option<usize>>, Memory> {
        match counts {
            None => Ok(branch_with(self, Ok(Vec::new(alloc)))),
            Some(counts) => {
                let counted = paths_counted(alloc, self.paths(), counts.as_slice())?;
                Ok(branch_with(self, counted))
            }
        }
    }
}

// The branch with its paths counted.
fn branch_with(
    branch: BranchCoverage,
    counted: Result<Vec<PathCoverage>, usize>,
) -> Result<BranchCoverage, Option<usize>>
    ensures { result ≡ spec.branch_with branch (result_map_both (λ paths. paths.items) (λ place. place) counted) }
{
    match counted {
        Ok(paths) => Ok(branch.with_paths(Items::from_vec(paths))),
        Err(place) => Err(Some(place)),
    }
}

// The paths with their counts, or the place of the first count that is none.
fn paths_counted(
    alloc: Global,
    paths: &[PathCoverage],
    counts: &[Option<Count>],
) -> Result<Result<Vec<PathCoverage>, usize>, Memory>
    ensures { IfOk result (λ counted. result_map_both (λ paths. paths.items) (λ place. place) counted
        ≡ paths_with 0 paths.now counts.now) }
{
    let mut counted = Vec::new(alloc);
    for place in 0..paths.len().min(counts.len()) {
        let location = paths[place].location;
        let Some(count) = counts[place] else {
            return Ok(Err(place));
        };
        counted.push(PathCoverage { location, count })?;
    }
    Ok(Ok(counted))
}
