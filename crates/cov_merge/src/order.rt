ghost use Rattle.std.specs.Prelude.{◌≡◌};
ghost use Rattle.std.specs.Option.{option_cmp};
ghost use Rattle.std.specs.Cmp.Lexicographic.{slice_cmp};
ghost use Rattle.cov_merge.specs.private.Order.{position_cmp, location_cmp, path_cmp};

use cov_object::{Location, PathCoverage, Position};
use std::cmp::Ordering;

// Compares two parts of files by their starts, then by their ends.
pub(crate) fn compare_locations(a: Location, b: Location) -> Ordering
    ensures { result ≡ location_cmp a b }
{
    compare_ends(a.start, b.start).then_with(|| compare_ends(a.end, b.end))
}

// Compares two places; none comes first.
fn compare_ends(a: Option<Position>, b: Option<Position>) -> Ordering
    ensures { result ≡ option_cmp position_cmp a b }
{
    match a {
        None => match b {
            None => Ordering::Equal,
            Some(_) => Ordering::Less,
        },
        Some(a) => match b {
            None => Ordering::Greater,
            Some(b) => compare_positions(a, b),
        },
    }
}

fn compare_positions(a: Position, b: Position) -> Ordering
    ensures { result ≡ position_cmp a b }
{
    a.line
        .get()
        .cmp(&b.line.get())
        .then_with(|| a.column.cmp(&b.column))
}

// Compares the locations of paths, one after another.
pub(crate) fn compare_paths(a: &[PathCoverage], b: &[PathCoverage]) -> Ordering
    ensures { result ≡ slice_cmp path_cmp a.now b.now }
{
    let mut left = a;
    let mut right = b;
    while let Some((first, left_rest)) = left.split_first() {
        match right.split_first() {
            None => return Ordering::Greater,
            Some((second, right_rest)) => {
                match compare_locations(first.location, second.location) {
                    Ordering::Less => return Ordering::Less,
                    Ordering::Greater => return Ordering::Greater,
                    Ordering::Equal => {
                        left = left_rest;
                        right = right_rest;
                    }
                }
            }
        }
    }
    if right.is_empty() {
        Ordering::Equal
    } else {
        Ordering::Less
    }
}
