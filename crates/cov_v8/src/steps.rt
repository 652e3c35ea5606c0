ghost use Rattle.std.specs.Prelude.{◌≡◌, ◌+◌, ◌<◌, ◌≤◌, ℕ, List, [], ◌∷◌, length, IfOk, IfSome, IfNone};
ghost use Rattle.std.specs.List.{All};
ghost use Rattle.cov_v8.specs.Form.{IsRange};
ghost use Rattle.cov_v8.specs.declared.steps.Step.{Step as a_step};
ghost use Rattle.cov_v8.specs.private.Steps as spec;

use crate::ranges::shorter;
use crate::v8::V8Range;
use items::Memory;
use std::alloc::Global;

// From an offset on, up to the next step's, this range is the shortest.
#[derive(Clone, Copy, Debug)]
pub(crate) struct Step {
    pub(crate) from: u64,
    pub(crate) range: Option<V8Range>,
}

// What is left of two lists of steps, and the ranges of the steps that were taken last.
#[derive(Drop)]
struct Merge<'a> {
    left: Option<V8Range>,
    right: Option<V8Range>,
    first: &'a [Step],
    later: &'a [Step],
}

// Whether the next step is one of the first list.
fn starts_first(first: &[Step], later: &[Step]) -> bool
    ensures { result ≡ spec.starts_first first.now later.now }
{
    if first.is_empty() {
        return false;
    }
    later.is_empty() || first[0].from <= later[0].from
}

impl<'a> Merge<'a> {
    // The next step of the two lists together.
    fn next(&mut self) -> Option<Step>
        ensures some { IfSome result (λ step. (at : ℕ) (more : List a_step) → spec.Meets self.new more at → spec.Meets self.old (step ∷ more) at) }
        ensures less { IfSome result (λ step. length self.new.first.now + length self.new.later.now < length self.old.first.now + length self.old.later.now) }
        ensures none { IfNone result ((at : ℕ) → spec.Meets self.old [] at) }
    {
        if starts_first(self.first, self.later) {
            let step = self.first[0];
            self.first = &self.first[1..];
            self.left = step.range;
            return Some(Step {
                from: step.from,
                range: shorter(self.left, self.right),
            });
        }
        if self.later.is_empty() {
            return None;
        }
        let step = self.later[0];
        self.later = &self.later[1..];
        self.right = step.range;
        Some(Step {
            from: step.from,
            range: shorter(self.left, self.right),
        })
    }
}

// The steps of two lists together.
fn merged(alloc: Global, first: &[Step], later: &[Step]) -> Result<Vec<Step>, Memory>
    ensures { IfOk result (λ all. spec.Tells all.items first.now later.now) }
{
    let mut all = Vec::new(alloc);
    let mut merge = Merge {
        left: None,
        right: None,
        first,
        later,
    };
    'next: while let Some(step) = merge.next() {
        all.push(step)?;
    }
    Ok(all)
}

// The steps of one range.
fn one(alloc: Global, range: V8Range) -> Result<Vec<Step>, Memory>
    requires { range.start ≤ range.end }
    ensures { IfOk result (λ steps. spec.AreSteps (range ∷ []) steps.items) }
{
    let mut steps = Vec::new(alloc);
    steps.push(Step {
        from: range.start,
        range: Some(range),
    })?;
    steps.push(Step {
        from: range.end,
        range: None,
    })?;
    Ok(steps)
}

// The steps of some ranges: at each offset the shortest that holds it, of equally long ones the last.
pub(crate) fn steps(alloc: Global, ranges: &[V8Range]) -> Result<Vec<Step>, Memory>
    requires { All IsRange ranges.now }
    ensures { IfOk result (λ steps. spec.AreSteps ranges.now steps.items) }
{
    if ranges.is_empty() {
        return Ok(Vec::new(alloc));
    }
    if ranges.len() == 1 {
        return one(alloc, ranges[0]);
    }
    let (front, back) = ranges.split_at(ranges.len() / 2);
    let first = steps(alloc, front)?;
    let later = steps(alloc, back)?;
    let all = merged(alloc, &first, &later)?;
    Ok(all)
}
