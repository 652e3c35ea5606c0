ghost use Rattle.std.specs.Prelude.{◌≡◌};
ghost use Rattle.cov_summary.specs.Totals.{next, none, with_count};

/// How many there are of something, and how many of them ran. Each number stops at 2^53 - 1.
#[derive(Clone, Copy, Debug)]
pub struct Totals {
    /// How many there are.
    pub total: u64,
    /// How many of them ran.
    pub covered: u64,
}

/// The greatest number that is told: 2^53 - 1.
const MOST: u64 = 9_007_199_254_740_991;

impl Totals {
    /// The totals of nothing.
    pub fn none() -> Totals
        ensures { result ≡ none }
    {
        Totals {
            total: 0,
            covered: 0,
        }
    }

    // The totals with one more, which ran so often.
    pub(crate) fn with_count(self, count: u64) -> Totals
        ensures { result ≡ with_count self count }
    {
        Totals {
            total: next(self.total),
            covered: if count > 0 {
                next(self.covered)
            } else {
                self.covered
            },
        }
    }
}

// One more, up to the greatest number that is told.
fn next(number: u64) -> u64
    ensures { result ≡ next number }
{
    if number < MOST { number + 1 } else { number }
}
