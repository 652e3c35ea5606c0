ghost use Rattle.std.specs.Prelude.{◌≡◌, ◌≤◌, List};
ghost use Rattle.cov_v8.specs.declared.v8.V8Range.{V8Range as a_range};
ghost use Rattle.cov_v8.specs.Coverage.{count_at};
ghost use Rattle.cov_v8.specs.private.Steps as spec;

use crate::steps::Step;
use crate::v8::V8Range;

// A walk along steps, forward only: what is found where it stands, and the steps after it.
#[derive(Drop)]
pub(crate) struct Walk<'a> {
    at: u64,
    found: Option<V8Range>,
    rest: &'a [Step],
}

impl<'a> Walk<'a> {
    // A walk before all steps.
    pub(crate) fn new(steps: &'a [Step]) -> Walk<'a>
        ensures start { result.at ≡ 0 }
        ensures steps { (ranges : List a_range) → spec.AreSteps ranges steps.now → spec.Walks ranges result }
    {
        Walk {
            at: 0,
            found: None,
            rest: steps,
        }
    }

    // How often the unit at an offset ran.
    pub(crate) fn count_at(&mut self, at: u64) -> u64
        requires { self.now.at ≤ at }
        ensures moved { self.new.at ≡ at }
        ensures walks { (ranges : List a_range) → spec.Walks ranges self.old → spec.Walks ranges self.new }
        ensures count { (ranges : List a_range) → spec.Walks ranges self.old → result ≡ count_at ranges at }
    {
        'steps: while !self.rest.is_empty() && self.rest[0].from <= at {
            self.found = self.rest[0].range;
            self.rest = &self.rest[1..];
        }
        self.at = at;
        match self.found {
            Some(range) => range.count,
            None => 0,
        }
    }
}
