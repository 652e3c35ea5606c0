use crate::counted::Counted;
use crate::key::Counter;
use crate::order::compare_locations;
use crate::sums::{add_one, sums_of_one};
use cov_object::{Count, FileCoverage, FunctionCoverage};
use items::{Memory, Text};
use std::alloc::Global;
use std::cmp::Ordering;

impl Counted for FunctionCoverage {
    ghost use Rattle.std.specs.Prelude.{refl};
    ghost use Rattle.cov_merge.specs.Kinds.{functions};
    ghost use Rattle.cov_merge.specs.private.Order.{function_cmp};
    ghost use Rattle.cov_merge.specs.private.Orders.{function_total, function_tells};

    ghost kind = { functions };

    ghost order = { function_cmp };

    ghost total = { function_total };

    ghost tells = { function_tells };

    ghost long = { λ _ _ _. refl };

    fn entries(file: &FileCoverage) -> &[(u64, FunctionCoverage)] {
        file.functions.as_slice()
    }

    fn compare(&self, other: &FunctionCoverage) -> Ordering {
        compare_locations(self.declaration, other.declaration).then_with(|| compare_locations(
            self.location,
            other.location,
        ))
    }

    fn first_sums(&self, alloc: Global) -> Result<Vec<u64>, Memory> {
        sums_of_one(alloc, self.count)
    }

    fn add_to(&self, sums: &mut Vec<u64>) {
        add_one(sums, self.count);
    }

    fn with_counts(&self, alloc: Global, sums: &[u64]) -> Result<FunctionCoverage, Memory> {
        let count = match sums {
            [sum, ..] => Count::new(*sum),
            [] => self.count,
        };
        Ok(FunctionCoverage {
            name: Text::from_str(alloc, self.name.as_str())?,
            declaration: self.declaration,
            location: self.location,
            count,
        })
    }

    fn counter(&self, _alloc: Global, _place: usize) -> Result<Counter, Memory> {
        Ok(Counter::Function {
            declaration: self.declaration,
            location: self.location,
        })
    }
}
