use items::{Items, Text};

/// Where something stands in a source.
#[derive(Clone, Copy, Debug)]
pub struct Origin {
    /// The number of the source in the map's list, from 0.
    pub source: u32,
    /// The line, from 1.
    pub line: u32,
    /// The column in it, from 0.
    pub column: u32,
    /// The number of a name in the map's list, where one is given.
    pub name: Option<u32>,
}

/// From where on a line of the generated text comes from one place.
#[derive(Clone, Copy, Debug)]
pub struct Segment {
    /// The line of the generated text, from 1.
    pub line: u64,
    /// The column in it, from 0.
    pub column: u32,
    /// What it comes from; none where it comes from no source.
    pub origin: Option<Origin>,
}

/// What a place in the generated text comes from.
#[derive(Clone, Copy, Debug)]
pub struct Traced {
    /// The number of the source in the map's list, from 0.
    pub source: u32,
    /// The line, from 1.
    pub line: u32,
    /// The column in it, from 0.
    pub column: u32,
}

/// What a source map tells: its sources, of which some have no text, its names, and its segments as they
/// stand in the generated text.
#[derive(Debug, Drop)]
pub struct Parts {
    /// The sources.
    pub sources: Items<Option<Text>>,
    /// The names.
    pub names: Items<Text>,
    /// The segments, by line and column.
    pub segments: Items<Segment>,
}
