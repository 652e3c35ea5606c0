ghost use Rattle.std.specs.Prelude.{◌≡◌};
ghost use Rattle.std.specs.Option.{option_eq};
ghost use Rattle.cov_object.specs.Location.{nowhere, same_position, same_location};

use crate::number::Line;

/// A place in a source text.
#[derive(Clone, Copy, Debug)]
pub struct Position {
    /// The line.
    pub line: Line,
    /// The column, from 0, in UTF-16 units; `None` is the line's end.
    pub column: Option<u32>,
}

/// A part of a source text, up to and without its end. A part that stands nowhere, as the `else`
/// that an `if` lacks, has neither a start nor an end.
#[derive(Clone, Copy, Debug)]
pub struct Location {
    /// Where the part's first character stands.
    pub start: Option<Position>,
    /// Where the part ends: the place after its last character.
    pub end: Option<Position>,
}

impl Location {
    /// No part at all.
    pub fn nowhere() -> Location
        ensures { result ≡ nowhere }
    {
        Location {
            start: None,
            end: None,
        }
    }

    /// Whether it is the same part as another.
    pub fn is_same(self, other: Location) -> bool
        ensures { result ≡ same_location self other }
    {
        is_same_place(self.start, other.start) && is_same_place(self.end, other.end)
    }
}

// Whether two places are the same, or both are none.
fn is_same_place(a: Option<Position>, b: Option<Position>) -> bool
    ensures { result ≡ option_eq same_position a b }
{
    match (a, b) {
        (None, None) => true,
        (Some(a), Some(b)) => a.line.get() == b.line.get() && a.column == b.column,
        (None, Some(_)) | (Some(_), None) => false,
    }
}
