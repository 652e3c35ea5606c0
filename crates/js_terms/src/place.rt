/// A place in a source text.
#[derive(Clone, Copy, Debug, PartialEq, Eq, PartialOrd, Ord)]
pub struct Pos {
    /// The line, from 1. A greater number than fits stands as 2^32 - 1.
    pub line: u32,
    /// The column, from 0, in UTF-16 units. A greater number than fits stands as 2^32 - 1.
    pub column: u32,
}

/// A part of a source text: from its start up to, and without, its end.
#[derive(Clone, Copy, Debug, PartialEq, Eq)]
pub struct Loc {
    /// Where the part's first character stands.
    pub start: Pos,
    /// Where the part ends: the place after its last character.
    pub end: Pos,
}
