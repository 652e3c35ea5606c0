/// How a scope declares a name.
#[derive(Clone, Copy)]
pub enum Binding {
    /// A parameter (ECMA-262, 15.1).
    Parameter,
    /// The name of a `catch` (14.15).
    CatchName,
    /// `let`, `const`, or a function in a block (8.2.4).
    Lexical,
    /// `var`, or a function at the top of a file or of a function's body (8.2.6, 8.2.10).
    Var,
}
