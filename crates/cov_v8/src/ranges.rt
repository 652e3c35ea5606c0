ghost use Rattle.std.specs.Prelude.{◌≡◌, IfOk};
ghost use Rattle.std.specs.List.{All, list_all};
ghost use Rattle.cov_v8.specs.Form.{IsRange, AreFunctions};
ghost use Rattle.cov_v8.specs.Coverage as spec;

use crate::v8::{V8Function, V8Range};
use items::Memory;
use std::alloc::Global;

// All ranges of all functions.
pub(crate) fn all_ranges(alloc: Global, functions: &[V8Function]) -> Result<Vec<V8Range>, Memory>
    requires { AreFunctions functions.now }
    ensures all { IfOk result (λ ranges. ranges.items ≡ spec.all_ranges functions.now) }
    ensures formed { IfOk result (λ ranges. All IsRange ranges.items) }
{
    let mut ranges = Vec::new(alloc);
    for function in functions {
        ranges.extend_from_slice(function.ranges.as_slice())?;
    }
    Ok(ranges)
}

// Whether no offset of a range is past so many units.
pub(crate) fn are_within(units: u64, ranges: &[V8Range]) -> bool
    ensures { result ≡ list_all (spec.is_within units) ranges.now }
{
    for range in ranges {
        if range.start > units || range.end > units {
            return false;
        }
    }
    true
}

// The shorter of two, and of equally long ones the last.
pub(crate) fn shorter(first: Option<V8Range>, later: Option<V8Range>) -> Option<V8Range>
    ensures { result ≡ spec.shorter first later }
{
    match (first, later) {
        (None, later) => later,
        (Some(range), None) => Some(range),
        (Some(range), Some(later)) => if size(range) < size(later) {
            Some(range)
        } else {
            Some(later)
        },
    }
}

fn size(range: V8Range) -> u64
    ensures { result ≡ spec.size range }
{
    range.end.saturating_sub(range.start)
}
