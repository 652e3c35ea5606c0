ghost use Rattle.std.specs.Prelude.{◌≡◌};
ghost use Rattle.js_text.specs.Token as T;
ghost use Rattle.js_lexer.specs.Token.{kind_of};
ghost use Rattle.js_reading.specs.Kinds as kinds;
ghost use Rattle.js_grammar.specs.View.{spelled, plain_sign};

use crate::slot::{ProductionWord, Sign};
use js_lexer::TokenKind;
use js_text::Punctuator;

/// How a word of a production is spelled.
fn spelling(word: ProductionWord) -> &'static str
    ensures { result.now ≡ spelled word }
{
    match word {
        ProductionWord::Break => "break",
        ProductionWord::Case => "case",
        ProductionWord::Catch => "catch",
        ProductionWord::Const => "const",
        ProductionWord::Continue => "continue",
        ProductionWord::Debugger => "debugger",
        ProductionWord::Default => "default",
        ProductionWord::Delete => "delete",
        ProductionWord::Do => "do",
        ProductionWord::Else => "else",
        ProductionWord::Finally => "finally",
        ProductionWord::For => "for",
        ProductionWord::Function => "function",
        ProductionWord::If => "if",
        ProductionWord::In => "in",
        ProductionWord::InstanceOf => "instanceof",
        ProductionWord::Let => "let",
        ProductionWord::New => "new",
        ProductionWord::Of => "of",
        ProductionWord::Return => "return",
        ProductionWord::Switch => "switch",
        ProductionWord::Throw => "throw",
        ProductionWord::Try => "try",
        ProductionWord::TypeOf => "typeof",
        ProductionWord::Var => "var",
        ProductionWord::Void => "void",
        ProductionWord::While => "while",
    }
}

/// Whether a token is this one.
pub fn is_sign(sign: Sign, kind: TokenKind<'_>) -> bool
    ensures { result ≡ kinds.is_kind (plain_sign sign) (kind_of kind.entry) }
{
    match sign {
        Sign::Mark(mark) => is_mark(mark, kind),
        Sign::Word(word) => is_word(word, kind),
    }
}

/// Whether a token is this punctuator.
pub fn is_mark(mark: Punctuator, kind: TokenKind<'_>) -> bool
    ensures { result ≡ kinds.is_kind (T.Punctuator mark) (kind_of kind.entry) }
{
    match kind {
        TokenKind::Punctuator(punctuator) => code_of(mark) == code_of(punctuator),
        _ => false,
    }
}

/// Whether a token is this word, without an escape.
pub fn is_word(word: ProductionWord, kind: TokenKind<'_>) -> bool
    ensures { result ≡ kinds.is_kind (T.Word (spelled word)) (kind_of kind.entry) }
{
    match kind {
        TokenKind::Word(text) => text == spelling(word),
        _ => false,
    }
}

/// The number of a punctuator.
fn code_of(punctuator: Punctuator) -> u8
    ensures { result ≡ kinds.code_of punctuator }
{
    match punctuator {
        Punctuator::UnsignedShiftRightAssign => 0,
        Punctuator::Ellipsis => 1,
        Punctuator::StrictEqual => 2,
        Punctuator::StrictNotEqual => 3,
        Punctuator::ExponentAssign => 4,
        Punctuator::ShiftLeftAssign => 5,
        Punctuator::ShiftRightAssign => 6,
        Punctuator::UnsignedShiftRight => 7,
        Punctuator::LogicalAndAssign => 8,
        Punctuator::LogicalOrAssign => 9,
        Punctuator::CoalesceAssign => 10,
        Punctuator::Arrow => 11,
        Punctuator::Equal => 12,
        Punctuator::NotEqual => 13,
        Punctuator::LessOrEqual => 14,
        Punctuator::GreaterOrEqual => 15,
        Punctuator::Increment => 16,
        Punctuator::Decrement => 17,
        Punctuator::Exponent => 18,
        Punctuator::ShiftLeft => 19,
        Punctuator::ShiftRight => 20,
        Punctuator::LogicalAnd => 21,
        Punctuator::LogicalOr => 22,
        Punctuator::Coalesce => 23,
        Punctuator::OptionalChain => 24,
        Punctuator::AddAssign => 25,
        Punctuator::SubtractAssign => 26,
        Punctuator::MultiplyAssign => 27,
        Punctuator::DivideAssign => 28,
        Punctuator::RemainderAssign => 29,
        Punctuator::AndAssign => 30,
        Punctuator::OrAssign => 31,
        Punctuator::XorAssign => 32,
        Punctuator::OpenBrace => 33,
        Punctuator::CloseBrace => 34,
        Punctuator::OpenParenthesis => 35,
        Punctuator::CloseParenthesis => 36,
        Punctuator::OpenBracket => 37,
        Punctuator::CloseBracket => 38,
        Punctuator::Dot => 39,
        Punctuator::Semicolon => 40,
        Punctuator::Comma => 41,
        Punctuator::LessThan => 42,
        Punctuator::GreaterThan => 43,
        Punctuator::Plus => 44,
        Punctuator::Minus => 45,
        Punctuator::Star => 46,
        Punctuator::Slash => 47,
        Punctuator::Percent => 48,
        Punctuator::Ampersand => 49,
        Punctuator::Bar => 50,
        Punctuator::Caret => 51,
        Punctuator::Exclamation => 52,
        Punctuator::Tilde => 53,
        Punctuator::Question => 54,
        Punctuator::Colon => 55,
        Punctuator::Assign => 56,
    }
}
