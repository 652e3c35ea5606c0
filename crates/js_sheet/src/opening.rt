/// With what an expression begins, as far as a statement or a body may not begin so.
#[derive(Clone, Copy)]
pub enum Opening {
    /// With `{`.
    Brace,
    /// With `function`.
    Function,
    /// With another token.
    Other,
}
