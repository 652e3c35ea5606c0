ghost use Rattle.std.specs.Prelude.{◌≡◌, ◌++◌, OnOk};
ghost use Rattle.serde_json.specs.Data.{Data};
ghost use Rattle.serde_json.specs.Written.{compact_text};
ghost use Rattle.cov_object.specs.declared.counted.Part.{Part};
ghost use Rattle.cov_object.specs.private.Counted.{part_of};
ghost use Rattle.cov_object.specs.Json as spec;

use crate::branch::BranchCoverage;
use crate::description::{push_branch, push_function};
use crate::digits::push_digits;
use crate::file::{FunctionCoverage, StatementCoverage};
use crate::list::push_path_counts;
use crate::place::push_location;
use items::Memory;
use std::alloc::Global;

// What the JSON has of a thing, each in an object of its own.
#[derive(Clone, Copy, Debug)]
pub(crate) enum Part {
    // how often it ran
    Counts,
    // what it is and where it stands
    Description,
}

// What is numbered in a file and counted: a statement, a function or a branch.
pub(crate) trait Counted {
    // the JSON of a part
    ghost json: { Part → Self → Data };

    // Writes a part at the end of `out`.
    fn push(&self, alloc: Global, out: &mut Vec<u8>, part: Part) -> Result<(), Memory>
        ensures { OnOk result (out.new.items ≡ out.old.items ++ compact_text (json part self.now)) };
}

impl Counted for StatementCoverage {
    ghost json = { λ part statement. part_of part (spec.count_data statement.count) (spec.location_data statement.location) };

    fn push(&self, _alloc: Global, out: &mut Vec<u8>, part: Part) -> Result<(), Memory> {
        match part {
            Part::Counts => push_digits(out, self.count.get()),
            Part::Description => push_location(out, self.location),
        }
    }
}

impl Counted for FunctionCoverage {
    ghost json = { λ part function. part_of part (spec.count_data function.count) (spec.function_data function) };

    fn push(&self, alloc: Global, out: &mut Vec<u8>, part: Part) -> Result<(), Memory> {
        match part {
            Part::Counts => push_digits(out, self.count.get()),
            Part::Description => push_function(alloc, out, self),
        }
    }
}

impl Counted for BranchCoverage {
    ghost json = { λ part branch. part_of part (spec.path_counts_data branch) (spec.branch_data branch) };

    fn push(&self, alloc: Global, out: &mut Vec<u8>, part: Part) -> Result<(), Memory> {
        match part {
            Part::Counts => push_path_counts(out, self.paths()),
            Part::Description => push_branch(alloc, out, self),
        }
    }
}
