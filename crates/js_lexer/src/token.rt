use crate::Punctuator;
use js_terms::Loc;

/// What a token is. All but punctuators lend their spelling from the text.
#[derive(Clone, Copy, Debug, PartialEq, Eq)]
pub enum TokenKind<'a> {
    /// An identifier's name without escapes, also a reserved word.
    Word(&'a str),
    /// An identifier's name with an escape. It is never a reserved word; `name_of` says its name.
    EscapedWord(&'a str),
    /// A number.
    Numeral(&'a str),
    /// A number that ends with `n`.
    BigInt(&'a str),
    /// A string literal with its quotes; `units_of` says its units.
    StringLiteral(&'a str),
    /// A template without `${`, with its backquotes.
    NoSubstitutionTemplate(&'a str),
    /// A template from its backquote to its first `${`.
    TemplateHead(&'a str),
    /// A template from the `}` that closes a `${` to the next `${`.
    TemplateMiddle(&'a str),
    /// A template from the `}` that closes its last `${` to its backquote.
    TemplateTail(&'a str),
    /// A regular expression with its flags.
    RegularExpression(&'a str),
    /// A punctuator.
    Punctuator(Punctuator),
    /// The end of the text.
    End,
}

/// A part of a text, in bytes from the text's start: from its start up to, and without, its end.
#[derive(Clone, Copy, Debug, PartialEq, Eq)]
pub struct Span {
    /// How many bytes stand before the part.
    pub start: usize,
    /// How many bytes stand before its end.
    pub end: usize,
}

/// A token, where it stands, and what stands before it.
#[derive(Clone, Copy, Debug, PartialEq, Eq)]
pub struct Token<'a> {
    /// What it is.
    pub kind: TokenKind<'a>,
    /// How many bytes of the text stand before it.
    pub start: usize,
    /// How many bytes of the text stand before its end.
    pub end: usize,
    /// Its lines and columns.
    pub loc: Loc,
    /// Whether a line terminator stands between the token before and this one.
    pub line_terminator_before: bool,
    /// From the start of the first comment between the two to the end of the last. Where there is
    /// none, both are the start of this token.
    pub comments: Span,
}
