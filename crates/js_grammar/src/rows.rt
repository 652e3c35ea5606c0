ghost use Rattle.std.specs.Prelude.{◌≡◌};
ghost use Rattle.js_reading.specs.Productions as productions;
ghost use Rattle.js_reading.specs.declared.form.Form.TheVariants as form;
ghost use Rattle.js_grammar.specs.View.{plain_slots, after_told};

use crate::slot::{ProductionWord, Sign, Slot, Wanted};
use js_reading::{Choice, Class, Form};
use js_text::Punctuator;
use js_tree::{BinaryOperator, LogicalOperator};

pub(crate) const OPEN: Slot = Slot::Sign(Sign::Mark(Punctuator::OpenParenthesis));

pub(crate) const CLOSE: Slot = Slot::Sign(Sign::Mark(Punctuator::CloseParenthesis));

pub(crate) const OPEN_BRACE: Slot = Slot::Sign(Sign::Mark(Punctuator::OpenBrace));

pub(crate) const CLOSE_BRACE: Slot = Slot::Sign(Sign::Mark(Punctuator::CloseBrace));

pub(crate) const CLOSE_BRACKET: Slot = Slot::Sign(Sign::Mark(Punctuator::CloseBracket));

pub(crate) const COLON: Slot = Slot::Sign(Sign::Mark(Punctuator::Colon));

pub(crate) const SEMICOLON: Slot = Slot::Sign(Sign::Mark(Punctuator::Semicolon));

pub(crate) const BOUND_NAME: Slot = Slot::Text(Class::BoundName);

pub(crate) const EXPRESSION: Slot = Slot::Expr(Wanted::Level(1));

pub(crate) const ASSIGNMENT: Slot = Slot::Expr(Wanted::Level(2));

const OPERAND: Slot = Slot::Expr(Wanted::Level(16));

const WHILE: Slot = Slot::Sign(Sign::Word(ProductionWord::While));

const ITEMS: Slot = Slot::Items(Punctuator::CloseParenthesis);

const ENDED: Slot = Slot::By(Choice::Semicolon);

/// The right operand of an operator.
fn operand(operator: BinaryOperator) -> &'static [Slot]
    ensures { plain_slots result.now ≡ after_told (productions.slots (form.Binary operator)) }
{
    match operator {
        BinaryOperator::Exponentiate
        | BinaryOperator::Multiply
        | BinaryOperator::Divide
        | BinaryOperator::Remainder => &[Slot::Expr(Wanted::Level(15))],
        BinaryOperator::Add | BinaryOperator::Subtract => &[Slot::Expr(Wanted::Level(14))],
        BinaryOperator::LeftShift
        | BinaryOperator::SignedRightShift
        | BinaryOperator::UnsignedRightShift => &[Slot::Expr(Wanted::Level(13))],
        BinaryOperator::LessThan
        | BinaryOperator::GreaterThan
        | BinaryOperator::LessThanOrEqual
        | BinaryOperator::GreaterThanOrEqual
        | BinaryOperator::InstanceOf
        | BinaryOperator::In => &[Slot::Expr(Wanted::Level(12))],
        BinaryOperator::Equal
        | BinaryOperator::NotEqual
        | BinaryOperator::StrictEqual
        | BinaryOperator::StrictNotEqual => &[Slot::Expr(Wanted::Level(11))],
        BinaryOperator::BitwiseAnd => &[Slot::Expr(Wanted::Level(10))],
        BinaryOperator::BitwiseXor => &[Slot::Expr(Wanted::Level(9))],
        BinaryOperator::BitwiseOr => &[Slot::Expr(Wanted::Level(8))],
    }
}

/// The same of a logical operator.
fn logical_operand(operator: LogicalOperator) -> &'static [Slot]
    ensures { plain_slots result.now ≡ after_told (productions.slots (form.Logical operator)) }
{
    match operator {
        LogicalOperator::And | LogicalOperator::Coalesce => &[Slot::Expr(Wanted::Level(7))],
        LogicalOperator::Or => &[Slot::Expr(Wanted::Level(6))],
    }
}

/// The slots of a production after the token that tells it; of an expression statement, those after its expression.
pub fn rest(form: Form) -> &'static [Slot]
    ensures { plain_slots result.now ≡ after_told (productions.slots form) }
{
    match form {
        Form::Parentheses => &[ITEMS, Slot::By(Choice::Arrow)],
        Form::ArrayLiteral => &[Slot::Items(Punctuator::CloseBracket)],
        Form::ObjectLiteral => &[Slot::By(Choice::Properties)],
        Form::Template => &[EXPRESSION, Slot::By(Choice::TemplateRest)],
        Form::FunctionExpression => &[
            Slot::By(Choice::FunctionName),
            OPEN,
            Slot::By(Choice::Parameters),
            OPEN_BRACE,
            Slot::Place,
            Slot::Stmts,
            CLOSE_BRACE,
            Slot::Place,
        ],
        Form::New => &[Slot::Expr(Wanted::Callee), Slot::By(Choice::Arguments)],
        Form::Call => &[ITEMS],
        Form::Dot => &[Slot::Text(Class::AnyName)],
        Form::Member => &[EXPRESSION, CLOSE_BRACKET],
        Form::Postfix(_) => &[],
        Form::PrefixUpdate(_) => &[OPERAND],
        Form::Unary(_) => &[OPERAND],
        Form::Binary(operator) => operand(operator),
        Form::Logical(operator) => logical_operand(operator),
        Form::Conditional => &[ASSIGNMENT, COLON, ASSIGNMENT],
        Form::Assignment(_) => &[ASSIGNMENT],
        Form::ArrowOfName => &[Slot::By(Choice::ConciseBody)],
        Form::Comma => &[ASSIGNMENT],
        Form::Expression => &[ENDED],
        Form::Labelled => &[Slot::Stmt],
        Form::Block => &[Slot::Stmts, CLOSE_BRACE],
        Form::Variables(_) => &[
            BOUND_NAME,
            Slot::By(Choice::Initializer),
            Slot::By(Choice::Declarators),
            ENDED,
        ],
        Form::FunctionDeclaration => &[
            BOUND_NAME,
            OPEN,
            Slot::By(Choice::Parameters),
            OPEN_BRACE,
            Slot::Place,
            Slot::Stmts,
            CLOSE_BRACE,
            Slot::Place,
        ],
        Form::If => &[OPEN, EXPRESSION, CLOSE, Slot::Stmt, Slot::By(Choice::Else)],
        Form::For => &[OPEN, Slot::By(Choice::Head)],
        Form::While => &[OPEN, EXPRESSION, CLOSE, Slot::Stmt],
        Form::DoWhile => &[
            Slot::Stmt,
            WHILE,
            OPEN,
            EXPRESSION,
            CLOSE,
            Slot::By(Choice::SemicolonOfDo),
        ],
        Form::Continue => &[Slot::By(Choice::LabelOnLine), ENDED],
        Form::Break => &[Slot::By(Choice::LabelOnLine), ENDED],
        Form::Return => &[Slot::By(Choice::ValueOnLine), ENDED],
        Form::Switch => &[
            OPEN,
            EXPRESSION,
            CLOSE,
            OPEN_BRACE,
            Slot::By(Choice::Clauses),
        ],
        Form::Throw => &[Slot::By(Choice::OnLine), EXPRESSION, ENDED],
        Form::Try => &[
            OPEN_BRACE,
            Slot::Stmts,
            CLOSE_BRACE,
            Slot::By(Choice::Handler),
        ],
        Form::Empty => &[],
        Form::Debugger => &[ENDED],
    }
}
