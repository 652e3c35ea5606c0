/// What a comment takes out of what coverage counts.
#[derive(Clone, Copy, Debug, PartialEq, Eq)]
pub enum Hint {
    /// `ignore if`: the arm of an `if` statement where its condition holds.
    If,
    /// `ignore else`: the arm of an `if` statement where its condition fails.
    Else,
    /// `ignore next`: a node and all that is in it.
    Next,
}
