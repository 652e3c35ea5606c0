use crate::{Loc, Pos};
use items::{Items, Text};

/// An identifier's decoded text (ECMA-262, 12.7).
pub type Name = Text;

/// An identifier that is no expression: the name of a function, or a label (ECMA-262, 13.1).
#[derive(Drop)]
pub struct Identifier {
    /// Where it stands: none where it was inserted.
    pub loc: Option<Loc>,
    /// Its name.
    pub name: Name,
}

/// A string literal, or a piece of text of a template (ECMA-262, 12.9.4 and 12.9.6).
#[derive(Drop)]
pub struct Spelled {
    /// The source's characters: of a string with its quotes, of a template those between two
    /// delimiters.
    pub spelling: Text,
    /// The 16-bit units that it stands for, its escapes taken out.
    pub units: Items<u16>,
}

/// A comment (ECMA-262, 12.4), or a hashbang comment (12.5).
#[derive(Drop)]
pub struct Comment {
    /// Its text without the delimiters: `//` or `#!` and the line's end, `/*` and `*/`.
    pub text: Text,
    /// Where the next token starts, the end of the text being a token.
    pub next: Pos,
}
