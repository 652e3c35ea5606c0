ghost use Rattle.std.specs.Prelude.{◌≡◌};
ghost use Rattle.js_text.specs.Punctuator as spec;

/// The punctuators of ECMA-262 (12.8).
#[derive(Clone, Copy, Debug, PartialEq, Eq)]
pub enum Punctuator {
    /// `>>>=`
    UnsignedShiftRightAssign,
    /// `...`
    Ellipsis,
    /// `===`
    StrictEqual,
    /// `!==`
    StrictNotEqual,
    /// `**=`
    ExponentAssign,
    /// `<<=`
    ShiftLeftAssign,
    /// `>>=`
    ShiftRightAssign,
    /// `>>>`
    UnsignedShiftRight,
    /// `&&=`
    LogicalAndAssign,
    /// `||=`
    LogicalOrAssign,
    /// `??=`
    CoalesceAssign,
    /// `=>`
    Arrow,
    /// `==`
    Equal,
    /// `!=`
    NotEqual,
    /// `<=`
    LessOrEqual,
    /// `>=`
    GreaterOrEqual,
    /// `++`
    Increment,
    /// `--`
    Decrement,
    /// `**`
    Exponent,
    /// `<<`
    ShiftLeft,
    /// `>>`
    ShiftRight,
    /// `&&`
    LogicalAnd,
    /// `||`
    LogicalOr,
    /// `??`
    Coalesce,
    /// `?.`
    OptionalChain,
    /// `+=`
    AddAssign,
    /// `-=`
    SubtractAssign,
    /// `*=`
    MultiplyAssign,
    /// `/=`
    DivideAssign,
    /// `%=`
    RemainderAssign,
    /// `&=`
    AndAssign,
    /// `|=`
    OrAssign,
    /// `^=`
    XorAssign,
    /// `{`
    OpenBrace,
    /// `}`
    CloseBrace,
    /// `(`
    OpenParenthesis,
    /// `)`
    CloseParenthesis,
    /// `[`
    OpenBracket,
    /// `]`
    CloseBracket,
    /// `.`
    Dot,
    /// `;`
    Semicolon,
    /// `,`
    Comma,
    /// `<`
    LessThan,
    /// `>`
    GreaterThan,
    /// `+`
    Plus,
    /// `-`
    Minus,
    /// `*`
    Star,
    /// `/`
    Slash,
    /// `%`
    Percent,
    /// `&`
    Ampersand,
    /// `|`
    Bar,
    /// `^`
    Caret,
    /// `!`
    Exclamation,
    /// `~`
    Tilde,
    /// `?`
    Question,
    /// `:`
    Colon,
    /// `=`
    Assign,
}

impl Punctuator {
    /// How it is written.
    pub fn spelling(self) -> &'static str
        ensures { result.now ≡ spec.spelling_of self }
    {
        match self {
            Punctuator::UnsignedShiftRightAssign => ">>>=",
            Punctuator::Ellipsis => "...",
            Punctuator::StrictEqual => "===",
            Punctuator::StrictNotEqual => "!==",
            Punctuator::ExponentAssign => "**=",
            Punctuator::ShiftLeftAssign => "<<=",
            Punctuator::ShiftRightAssign => ">>=",
            Punctuator::UnsignedShiftRight => ">>>",
            Punctuator::LogicalAndAssign => "&&=",
            Punctuator::LogicalOrAssign => "||=",
            Punctuator::CoalesceAssign => "??=",
            Punctuator::Arrow => "=>",
            Punctuator::Equal => "==",
            Punctuator::NotEqual => "!=",
            Punctuator::LessOrEqual => "<=",
            Punctuator::GreaterOrEqual => ">=",
            Punctuator::Increment => "++",
            Punctuator::Decrement => "--",
            Punctuator::Exponent => "**",
            Punctuator::ShiftLeft => "<<",
            Punctuator::ShiftRight => ">>",
            Punctuator::LogicalAnd => "&&",
            Punctuator::LogicalOr => "||",
            Punctuator::Coalesce => "??",
            Punctuator::OptionalChain => "?.",
            Punctuator::AddAssign => "+=",
            Punctuator::SubtractAssign => "-=",
            Punctuator::MultiplyAssign => "*=",
            Punctuator::DivideAssign => "/=",
            Punctuator::RemainderAssign => "%=",
            Punctuator::AndAssign => "&=",
            Punctuator::OrAssign => "|=",
            Punctuator::XorAssign => "^=",
            Punctuator::OpenBrace => "{",
            Punctuator::CloseBrace => "}",
            Punctuator::OpenParenthesis => "(",
            Punctuator::CloseParenthesis => ")",
            Punctuator::OpenBracket => "[",
            Punctuator::CloseBracket => "]",
            Punctuator::Dot => ".",
            Punctuator::Semicolon => ";",
            Punctuator::Comma => ",",
            Punctuator::LessThan => "<",
            Punctuator::GreaterThan => ">",
            Punctuator::Plus => "+",
            Punctuator::Minus => "-",
            Punctuator::Star => "*",
            Punctuator::Slash => "/",
            Punctuator::Percent => "%",
            Punctuator::Ampersand => "&",
            Punctuator::Bar => "|",
            Punctuator::Caret => "^",
            Punctuator::Exclamation => "!",
            Punctuator::Tilde => "~",
            Punctuator::Question => "?",
            Punctuator::Colon => ":",
            Punctuator::Assign => "=",
        }
    }
}
