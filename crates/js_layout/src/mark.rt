use js_tree::Pos;

/// A place in a printed text, and what begins there in the source.
#[derive(Clone, Copy, Debug, PartialEq, Eq)]
pub struct Mark {
    /// Where a token of the text starts: lines from 1, columns from 0 in UTF-16 units.
    pub at: Pos,
    /// Where a statement, a declarator, a function or an expression starts in the source that begins
    /// with the token; none where the token and those after it stand in no source.
    pub source: Option<Pos>,
}
