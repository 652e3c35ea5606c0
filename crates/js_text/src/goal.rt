/// What the next token may be: the grammar lets a division stand there, or a regular expression, or
/// the rest of a template.
#[derive(Clone, Copy, Debug, PartialEq, Eq)]
pub enum Goal {
    /// After an expression: a `/` would divide.
    Div,
    /// Where an expression may start: a `/` would begin a regular expression.
    RegExp,
    /// After the `}` that closes a template's `${`: the template goes on there.
    Template,
}
