use js_text::Punctuator;

/// What the next token chooses.
#[derive(Clone, Copy, Debug)]
pub enum Choice {
    /// `;`, or where none is written what may stand for it (ECMA-262, 12.10).
    Semicolon,
    /// The same after the `)` of `do` (12.10).
    SemicolonOfDo,
    /// An expression on this line, or none (14.10).
    ValueOnLine,
    /// A label on this line, or none (14.8, 14.9).
    LabelOnLine,
    /// No line terminator may stand here (14.14).
    OnLine,
    /// An expression, or none before this token (14.7.4).
    ValueBefore(Punctuator),
    /// Arguments of `new`, or none (13.3.5).
    Arguments,
    /// What stands after a pair of parentheses: an arrow's body on its line, or nothing (15.3).
    Arrow,
    /// An arrow's body: statements in braces, or an expression (15.3).
    ConciseBody,
    /// `else` and a statement, or neither (14.6).
    Else,
    /// `=` and an initializer, or neither (14.3).
    Initializer,
    /// The same without a bare `in`, in the head of `for` (14.7.4).
    InitializerInHead,
    /// More declarators after a comma (14.3).
    Declarators,
    /// The same in the head of `for` (14.7.4).
    DeclaratorsInHead,
    /// A function's name, or none (15.2).
    FunctionName,
    /// Parameters up to `)` (15.1).
    Parameters,
    /// What stands after a parameter (15.1).
    AfterParameter,
    /// Properties up to `}` (13.2.5).
    Properties,
    /// What stands after a key (13.2.5).
    AfterKey,
    /// What stands after a property (13.2.5).
    AfterProperty,
    /// A template's next part (13.2.8).
    TemplateRest,
    /// Clauses of a `switch` up to `}` (14.12).
    Clauses,
    /// `catch` or `finally` (14.15).
    Handler,
    /// A catch's name, or none (14.15).
    CatchName,
    /// `finally`, or none (14.15).
    Finally,
    /// Which `for` it is, by its first token (14.7.4, 14.7.5).
    Head,
    /// The same, by what stands after the name that it declares.
    AfterBound,
    /// The same, by what stands after its expression.
    AfterTarget,
}
