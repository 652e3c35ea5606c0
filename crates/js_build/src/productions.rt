ghost use Rattle.js_reading.specs.Makes as makes;
ghost use Rattle.js_build.specs.View.{plain_pieces, Makes};

use crate::queue::Queue;
use crate::{
    Piece, arrows, calls, declarations, functions, heads, jumps, objects, operators, parentheses,
    statements, switches, templates, tries,
};
use items::Memory;
use js_reading::Form;
use js_tree::Loc;
use std::alloc::Global;

/// What a production makes of its pieces, at this place: an expression with its level or a statement, or nothing.
pub fn build(
    alloc: Global,
    form: Form,
    place: Loc,
    pieces: Vec<Piece>,
) -> Result<Option<Piece>, Memory>
    ensures { Makes result (makes.build form place (plain_pieces pieces.items)) }
{
    let pieces = Queue::new(pieces);
    match form {
        Form::Parentheses => parentheses::parentheses(alloc, place, pieces),
        Form::ArrayLiteral => calls::array(alloc, place, pieces),
        Form::ObjectLiteral => objects::object(alloc, place, pieces),
        Form::Template => templates::template(alloc, place, pieces),
        Form::FunctionExpression => functions::function_expression(alloc, place, pieces),
        Form::New => calls::new(alloc, place, pieces),
        Form::Call => calls::call(alloc, place, pieces),
        Form::Dot => calls::dot(alloc, place, pieces),
        Form::Member => calls::member(alloc, place, pieces),
        Form::Postfix(operator) => operators::postfix(alloc, place, operator, pieces),
        Form::PrefixUpdate(operator) => operators::prefix_update(alloc, place, operator, pieces),
        Form::Unary(operator) => operators::unary(alloc, place, operator, pieces),
        Form::Binary(operator) => operators::binary(alloc, place, operator, pieces),
        Form::Logical(operator) => operators::logical(alloc, place, operator, pieces),
        Form::Conditional => operators::conditional(alloc, place, pieces),
        Form::Assignment(operator) => operators::assignment(alloc, place, operator, pieces),
        Form::ArrowOfName => arrows::arrow_of_name(alloc, place, pieces),
        Form::Comma => operators::comma(alloc, place, pieces),
        Form::Expression => statements::expression_statement(alloc, place, pieces),
        Form::Labelled => statements::labelled(alloc, place, pieces),
        Form::Block => statements::block(alloc, place, pieces),
        Form::Variables(kind) => declarations::variables(alloc, place, kind, pieces),
        Form::FunctionDeclaration => functions::function_declaration(alloc, place, pieces),
        Form::Empty => jumps::empty(alloc, place, pieces),
        Form::If => statements::if_statement(alloc, place, pieces),
        Form::For => heads::for_statement(alloc, place, pieces),
        Form::While => statements::while_loop(alloc, place, pieces),
        Form::DoWhile => statements::do_while(alloc, place, pieces),
        Form::Continue => jumps::continue_statement(alloc, place, pieces),
        Form::Break => jumps::break_statement(alloc, place, pieces),
        Form::Return => statements::return_statement(alloc, place, pieces),
        Form::Switch => switches::switch(alloc, place, pieces),
        Form::Throw => statements::throw(alloc, place, pieces),
        Form::Try => tries::try_statement(alloc, place, pieces),
        Form::Debugger => jumps::debugger(alloc, place, pieces),
    }
}
