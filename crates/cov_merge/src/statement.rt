use crate::counted::Counted;
use crate::key::Counter;
use crate::order::compare_locations;
use crate::sums::{add_one, sums_of_one};
use cov_object::{Count, FileCoverage, StatementCoverage};
use items::Memory;
use std::alloc::Global;
use std::cmp::Ordering;

impl Counted for StatementCoverage {
    ghost use Rattle.std.specs.Prelude.{refl};
    ghost use Rattle.cov_merge.specs.Kinds.{statements};
    ghost use Rattle.cov_merge.specs.private.Order.{statement_cmp};
    ghost use Rattle.cov_merge.specs.private.Orders.{statement_total, statement_tells};

    ghost kind = { statements };

    ghost order = { statement_cmp };

    ghost total = { statement_total };

    ghost tells = { statement_tells };

    ghost long = { λ _ _ _. refl };

    fn entries(file: &FileCoverage) -> &[(u64, StatementCoverage)] {
        file.statements.as_slice()
    }

    fn compare(&self, other: &StatementCoverage) -> Ordering {
        compare_locations(self.location, other.location)
    }

    fn first_sums(&self, alloc: Global) -> Result<Vec<u64>, Memory> {
        sums_of_one(alloc, self.count)
    }

    fn add_to(&self, sums: &mut Vec<u64>) {
        add_one(sums, self.count);
    }

    fn with_counts(&self, _alloc: Global, sums: &[u64]) -> Result<StatementCoverage, Memory> {
        let count = match sums {
            [sum, ..] => Count::new(*sum),
            [] => self.count,
        };
        Ok(StatementCoverage {
            location: self.location,
            count,
        })
    }

    fn counter(&self, _alloc: Global, _place: usize) -> Result<Counter, Memory> {
        Ok(Counter::Statement {
            location: self.location,
        })
    }
}
