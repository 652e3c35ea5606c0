use items::{Items, Text};

/// A text that stands in place of a source file, with its map.
#[derive(Debug, Drop)]
pub struct MappedText {
    /// The text.
    pub text: Text,
    /// The text of the source map that leads from it back to the source file.
    pub map: Items<u8>,
}

/// A source file whose coverage is counted, instrumented.
#[derive(Debug, Drop)]
pub struct Instrumented {
    /// Its path.
    pub path: Text,
    /// The text that stands in its place.
    pub text: Text,
    /// The text of the source map that leads from that text back to the file.
    pub map: Items<u8>,
}
