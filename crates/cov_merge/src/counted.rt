ghost use Rattle.std.specs.Prelude.{◌≡◌, length, true, IfOk};
ghost use Rattle.std.specs.Cmp.{IsTotalOrder};
ghost use Rattle.std.specs.Ordering.{eq_by_cmp};
ghost use Rattle.std.specs.declared.cmp.Ordering.{Ordering};
ghost use Rattle.cov_merge.specs.Kind.{Kind};
ghost use Rattle.cov_merge.specs.Sums.{plus};
ghost use Rattle.cov_merge.specs.private.Sums.{AreCounts};

use crate::key::Counter;
use cov_object::FileCoverage;
use items::Memory;
use std::alloc::Global;
use std::cmp::Ordering;

// What is counted in a file: a statement, a function or a branch.
pub(crate) trait Counted: Drop {
    // what of it counts for merging
    ghost kind: { Kind Self };

    // an order of the keys
    ghost order: { Self → Self → Ordering };

    // Those of a file, each beside its number.
    fn entries(file: &FileCoverage) -> &[(u64, Self)]
        ensures { result.now ≡ kind.entries file.now };

    // Compares the keys.
    fn compare(&self, other: &Self) -> Ordering
        ensures { result ≡ order self.now other.now };

    // How often it ran, as the first sums.
    fn first_sums(&self, alloc: Global) -> Result<Vec<u64>, Memory>
        ensures { IfOk result (λ sums. sums.items ≡ kind.counts self.now) };

    // Adds how often it ran to running sums.
    fn add_to(&self, sums: &mut Vec<u64>)
        ensures { sums.new.items ≡ plus sums.old.items (kind.counts self.now) };

    // The same with these sums as its counts.
    fn with_counts(&self, alloc: Global, sums: &[u64]) -> Result<Self, Memory>
        requires counts { AreCounts sums.now }
        requires long { length sums.now ≡ length (kind.counts self.now) }
        ensures { IfOk result (λ entry. entry ≡ kind.with_counts self.now sums.now) };

    // What names one of its counts.
    fn counter(&self, alloc: Global, place: usize) -> Result<Counter, Memory>
        ensures { IfOk result (λ counter. counter ≡ kind.counter self.now place) };

    // the order is one, and tells apart what has not the same key
    ghost total: { IsTotalOrder order };

    ghost tells: { (a b : Self) → eq_by_cmp order a b ≡ kind.same a b };

    // what has the same key has as many counts
    ghost long: { (a b : Self) → kind.same a b ≡ true → length (kind.counts a) ≡ length (kind.counts b) };
}
