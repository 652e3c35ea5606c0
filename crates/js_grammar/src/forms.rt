ghost use Rattle.std.specs.Prelude.{◌≡◌};
ghost use Rattle.js_text.specs.Token as T;
ghost use Rattle.js_lexer.specs.Token.{kind_of, plain_token};
ghost use Rattle.js_reading.specs.Productions as productions;
ghost use Rattle.js_grammar.specs.private.Told.{among, compounds, join_of, lasts, leavings, prefix_of, statement_of};

use js_lexer::{Token, TokenKind};
use js_reading::Form;
use js_text::Punctuator;
use js_tree::{
    AssignmentOperator, BinaryOperator, LogicalOperator, UnaryOperator, UpdateOperator,
    VariableKind,
};

/// The expression that a token begins, where it begins a production of the table.
pub fn prefix(token: Token<'_>) -> Option<Form>
    ensures { result ≡ productions.prefix (plain_token token.entry) }
{
    match token.kind {
        TokenKind::Punctuator(mark) => prefix_mark(mark),
        TokenKind::Word(word) => prefix_word(word),
        TokenKind::TemplateHead(_) => Some(Form::Template),
        _ => None,
    }
}

fn prefix_mark(mark: Punctuator) -> Option<Form>
    ensures { result ≡ prefix_of (T.Punctuator mark) }
{
    match mark {
        Punctuator::OpenParenthesis => Some(Form::Parentheses),
        Punctuator::OpenBracket => Some(Form::ArrayLiteral),
        Punctuator::OpenBrace => Some(Form::ObjectLiteral),
        Punctuator::Increment => Some(Form::PrefixUpdate(UpdateOperator::Increment)),
        Punctuator::Decrement => Some(Form::PrefixUpdate(UpdateOperator::Decrement)),
        Punctuator::Plus => Some(Form::Unary(UnaryOperator::Plus)),
        Punctuator::Minus => Some(Form::Unary(UnaryOperator::Minus)),
        Punctuator::Tilde => Some(Form::Unary(UnaryOperator::BitwiseNot)),
        Punctuator::Exclamation => Some(Form::Unary(UnaryOperator::LogicalNot)),
        _ => None,
    }
}

fn prefix_word(word: &str) -> Option<Form>
    ensures { result ≡ prefix_of (T.Word word.now) }
{
    if word == "function" {
        Some(Form::FunctionExpression)
    } else if word == "new" {
        Some(Form::New)
    } else if word == "delete" {
        Some(Form::Unary(UnaryOperator::Delete))
    } else if word == "void" {
        Some(Form::Unary(UnaryOperator::Void))
    } else if word == "typeof" {
        Some(Form::Unary(UnaryOperator::TypeOf))
    } else {
        None
    }
}

/// The statement that a token begins, where it begins one of the table.
pub fn statement(token: Token<'_>) -> Option<Form>
    ensures { result ≡ productions.statement (plain_token token.entry) }
{
    match token.kind {
        TokenKind::Punctuator(mark) => statement_mark(mark),
        TokenKind::Word(word) => statement_word(word),
        _ => None,
    }
}

fn statement_mark(mark: Punctuator) -> Option<Form>
    ensures { result ≡ statement_of (T.Punctuator mark) }
{
    match mark {
        Punctuator::OpenBrace => Some(Form::Block),
        Punctuator::Semicolon => Some(Form::Empty),
        _ => None,
    }
}

fn statement_word(word: &str) -> Option<Form>
    ensures { result ≡ statement_of (T.Word word.now) }
{
    if word == "var" {
        Some(Form::Variables(VariableKind::Var))
    } else if word == "let" {
        Some(Form::Variables(VariableKind::Let))
    } else if word == "const" {
        Some(Form::Variables(VariableKind::Const))
    } else if word == "function" {
        Some(Form::FunctionDeclaration)
    } else {
        compound_word(word)
    }
}

/// The `if` or the loop that a word begins, or one of those after them in the table.
fn compound_word(word: &str) -> Option<Form>
    ensures { result ≡ among compounds (T.Word word.now) }
{
    if word == "if" {
        Some(Form::If)
    } else if word == "for" {
        Some(Form::For)
    } else if word == "while" {
        Some(Form::While)
    } else if word == "do" {
        Some(Form::DoWhile)
    } else {
        leaving_word(word)
    }
}

/// The jump or the `switch` that a word begins, or one of those after them in the table.
fn leaving_word(word: &str) -> Option<Form>
    ensures { result ≡ among leavings (T.Word word.now) }
{
    if word == "continue" {
        Some(Form::Continue)
    } else if word == "break" {
        Some(Form::Break)
    } else if word == "return" {
        Some(Form::Return)
    } else if word == "switch" {
        Some(Form::Switch)
    } else {
        last_word(word)
    }
}

fn last_word(word: &str) -> Option<Form>
    ensures { result ≡ among lasts (T.Word word.now) }
{
    if word == "throw" {
        Some(Form::Throw)
    } else if word == "try" {
        Some(Form::Try)
    } else if word == "debugger" {
        Some(Form::Debugger)
    } else {
        None
    }
}

/// The expression that goes on with the one before a token, where the table has one (a postfix operator and `=>` on its line).
pub fn join(token: Token<'_>) -> Option<Form>
    ensures { result ≡ productions.join (plain_token token.entry) }
{
    let form = join_kind(token.kind)?;
    if token.line_terminator_before && same_line(form) {
        return None;
    }
    Some(form)
}

fn join_kind(kind: TokenKind<'_>) -> Option<Form>
    ensures { result ≡ join_of (kind_of kind.entry) }
{
    match kind {
        TokenKind::Punctuator(mark) => join_mark(mark),
        TokenKind::Word(word) => join_word(word),
        _ => None,
    }
}

fn join_mark(mark: Punctuator) -> Option<Form>
    ensures { result ≡ join_of (T.Punctuator mark) }
{
    match mark {
        Punctuator::OpenParenthesis => Some(Form::Call),
        Punctuator::Dot => Some(Form::Dot),
        Punctuator::OpenBracket => Some(Form::Member),
        Punctuator::Increment => Some(Form::Postfix(UpdateOperator::Increment)),
        Punctuator::Decrement => Some(Form::Postfix(UpdateOperator::Decrement)),
        Punctuator::Exponent => Some(Form::Binary(BinaryOperator::Exponentiate)),
        Punctuator::Star => Some(Form::Binary(BinaryOperator::Multiply)),
        Punctuator::Slash => Some(Form::Binary(BinaryOperator::Divide)),
        Punctuator::Percent => Some(Form::Binary(BinaryOperator::Remainder)),
        Punctuator::Plus => Some(Form::Binary(BinaryOperator::Add)),
        Punctuator::Minus => Some(Form::Binary(BinaryOperator::Subtract)),
        Punctuator::ShiftLeft => Some(Form::Binary(BinaryOperator::LeftShift)),
        Punctuator::ShiftRight => Some(Form::Binary(BinaryOperator::SignedRightShift)),
        Punctuator::UnsignedShiftRight => Some(Form::Binary(BinaryOperator::UnsignedRightShift)),
        Punctuator::LessThan => Some(Form::Binary(BinaryOperator::LessThan)),
        Punctuator::GreaterThan => Some(Form::Binary(BinaryOperator::GreaterThan)),
        Punctuator::LessOrEqual => Some(Form::Binary(BinaryOperator::LessThanOrEqual)),
        Punctuator::GreaterOrEqual => Some(Form::Binary(BinaryOperator::GreaterThanOrEqual)),
        Punctuator::Equal => Some(Form::Binary(BinaryOperator::Equal)),
        Punctuator::NotEqual => Some(Form::Binary(BinaryOperator::NotEqual)),
        Punctuator::StrictEqual => Some(Form::Binary(BinaryOperator::StrictEqual)),
        Punctuator::StrictNotEqual => Some(Form::Binary(BinaryOperator::StrictNotEqual)),
        Punctuator::Ampersand => Some(Form::Binary(BinaryOperator::BitwiseAnd)),
        Punctuator::Caret => Some(Form::Binary(BinaryOperator::BitwiseXor)),
        Punctuator::Bar => Some(Form::Binary(BinaryOperator::BitwiseOr)),
        Punctuator::LogicalAnd => Some(Form::Logical(LogicalOperator::And)),
        Punctuator::LogicalOr => Some(Form::Logical(LogicalOperator::Or)),
        Punctuator::Coalesce => Some(Form::Logical(LogicalOperator::Coalesce)),
        Punctuator::Question => Some(Form::Conditional),
        Punctuator::Assign => Some(Form::Assignment(AssignmentOperator::Assign)),
        Punctuator::ExponentAssign => Some(Form::Assignment(
            AssignmentOperator::ExponentiateAssign,
        )),
        Punctuator::MultiplyAssign => Some(Form::Assignment(AssignmentOperator::MultiplyAssign)),
        Punctuator::DivideAssign => Some(Form::Assignment(AssignmentOperator::DivideAssign)),
        Punctuator::RemainderAssign => Some(Form::Assignment(AssignmentOperator::RemainderAssign)),
        Punctuator::AddAssign => Some(Form::Assignment(AssignmentOperator::AddAssign)),
        Punctuator::SubtractAssign => Some(Form::Assignment(AssignmentOperator::SubtractAssign)),
        Punctuator::ShiftLeftAssign => Some(Form::Assignment(AssignmentOperator::LeftShiftAssign)),
        Punctuator::ShiftRightAssign => Some(Form::Assignment(
            AssignmentOperator::SignedRightShiftAssign,
        )),
        Punctuator::UnsignedShiftRightAssign => Some(Form::Assignment(
            AssignmentOperator::UnsignedRightShiftAssign,
        )),
        Punctuator::AndAssign => Some(Form::Assignment(AssignmentOperator::BitwiseAndAssign)),
        Punctuator::XorAssign => Some(Form::Assignment(AssignmentOperator::BitwiseXorAssign)),
        Punctuator::OrAssign => Some(Form::Assignment(AssignmentOperator::BitwiseOrAssign)),
        Punctuator::Arrow => Some(Form::ArrowOfName),
        Punctuator::Comma => Some(Form::Comma),
        _ => None,
    }
}

fn join_word(word: &str) -> Option<Form>
    ensures { result ≡ join_of (T.Word word.now) }
{
    if word == "instanceof" {
        Some(Form::Binary(BinaryOperator::InstanceOf))
    } else if word == "in" {
        Some(Form::Binary(BinaryOperator::In))
    } else {
        None
    }
}

/// Whether no line terminator may stand before the token that tells the production (ECMA-262, 13.4, 15.3).
fn same_line(form: Form) -> bool
    ensures { result ≡ productions.same_line form }
{
    match form {
        Form::Postfix(_) | Form::ArrowOfName => true,
        _ => false,
    }
}
