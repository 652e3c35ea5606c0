ghost use Rattle.std.specs.Prelude.{◌≡◌, IfOk};
ghost use Rattle.std.specs.Ordering.{is_lt};
ghost use Rattle.source_map.specs.Map.{is_before};
ghost use Rattle.source_map.specs.Mappings.{in_order as spec_order};

use crate::place::Segment;
use items::Memory;
use std::cmp::Ordering;

// Compares the places of two segments in the generated text.
fn compare(a: &Segment, b: &Segment) -> Ordering
    ensures { is_lt result ≡ is_before a.now b.now }
{
    match a.line.cmp(&b.line) {
        Ordering::Less => Ordering::Less,
        Ordering::Equal => a.column.cmp(&b.column),
        Ordering::Greater => Ordering::Greater,
    }
}

// The segments by line and column, those at one place as they come.
pub(crate) fn in_order(mut segments: Vec<Segment>) -> Result<Vec<Segment>, Memory>
    ensures { IfOk result (λ sorted. sorted.items ≡ spec_order segments.items) }
{
    segments.sort_by(|a, b| compare(a, b))?;
    Ok(segments)
}
