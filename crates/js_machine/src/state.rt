use items::Text;
use js_heap::Heap;
use js_value::Object;

/// A file that was started, by its path, and its object `module`.
#[derive(Drop)]
pub struct CachedFile {
    /// The path.
    pub path: Text,
    /// The object.
    pub object: Object,
}

/// An object `require`, and the path of the file that it was made for.
#[derive(Drop)]
pub struct RequiringFile {
    /// The object.
    pub function: Object,
    /// The path.
    pub path: Text,
}

/// Everything that a program can change.
#[derive(Drop)]
pub struct State {
    /// Its objects and environments.
    pub heap: Heap,
    /// What it printed.
    pub output: Vec<u8>,
    /// The files that it started and that did not throw.
    pub cache: Vec<CachedFile>,
    /// The objects `require` of its files.
    pub requiring: Vec<RequiringFile>,
    /// The numbers of all files that it started.
    pub starts: Vec<usize>,
}
