use items::{Items, Text};
use source_map::InputMap;

/// A source file.
#[derive(Debug, Drop)]
pub struct Source {
    /// Its path.
    pub path: Text,
    /// Its bytes.
    pub bytes: Items<u8>,
    /// Whether its coverage is counted.
    pub counted: bool,
    /// The map from it to the sources that it was itself made from, where there is one.
    pub input: Option<InputMap>,
}

/// The source files of a program, the one that runs first at the front.
pub type Sources = Vec<Source>;
