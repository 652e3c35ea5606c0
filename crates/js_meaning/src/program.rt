use items::{Items, Text};
use js_scopes::Checked;

/// A file of a program.
#[derive(Drop)]
pub struct ProgramFile {
    /// Its path, a source path that no other file of the program has.
    pub path: Text,
    /// Its tree.
    pub tree: Checked,
    /// Whether each entry of its constructs, and each of its starts, is charged a step and told.
    pub counted: bool,
}

/// The files of a program, and the tree of what runs before them.
#[derive(Drop)]
pub struct Program {
    /// The files, with distinct paths.
    pub files: Items<ProgramFile>,
    /// The methods that are written in the language itself.
    pub prelude: Checked,
}
