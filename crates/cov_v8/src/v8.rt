use items::{Items, Text};

/// A part of a source, and how often it ran.
#[derive(Clone, Copy, Debug)]
pub struct V8Range {
    /// The offset of its first unit.
    pub start: u64,
    /// The offset after its last unit.
    pub end: u64,
    /// How often it ran.
    pub count: u64,
}

/// A function, or the whole of a source.
#[derive(Debug, Drop)]
pub struct V8Function {
    /// Its name; empty where it has none.
    pub name: Text,
    /// Whether its parts are counted too.
    pub is_block: bool,
    /// The function itself, and then the parts that ran another number of times.
    pub ranges: Items<V8Range>,
}

/// A source that ran.
#[derive(Debug, Drop)]
pub struct V8Script {
    /// Where it came from.
    pub url: Text,
    /// Its functions.
    pub functions: Items<V8Function>,
}

/// The coverage of some sources, as V8 writes it.
#[derive(Debug, Drop)]
pub struct V8 {
    /// The sources that ran.
    pub scripts: Items<V8Script>,
}
