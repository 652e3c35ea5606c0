ghost use Rattle.std.specs.Prelude.{◌≡◌, ◌&&◌, List};
ghost use Rattle.std.specs.Option.{option_map};
ghost use Rattle.js_tree.specs.Tree.{plain_expr};
ghost use Rattle.js_reading.specs.Found as found;
ghost use Rattle.js_reading.specs.Turns as turns;
ghost use Rattle.js_reading.specs.Unsupported as unsupported;
ghost use Rattle.js_grammar.specs.View.{plain_slot, plain_slots};
ghost use Rattle.js_build.specs.View.{plain_piece, plain_pieces};
ghost use Rattle.js_stack.specs.Sight as spec;
ghost use Rattle.js_stack.specs.View.{config, frames, plain_frame};

use crate::groups::is_items;
use crate::left::Left;
use crate::production::{Frame, Place, Production};
use crate::stack::{Stack, owns};
use js_build::Piece;
use js_grammar::Slot;
use js_reading::{Choice, Class, Form};
use js_tree::{Expr, ExprNode, Loc};

/// What a place says of the next token's part.
#[derive(Clone, Copy)]
pub struct Sight {
    /// A key or a member's name is due: a word there begins no form but `__proto__`.
    pub at_any_name: bool,
    /// A property starts.
    pub at_property: bool,
    /// A property of an object starts.
    pub at_object: bool,
    /// A name to bind is due.
    pub at_bound_name: bool,
    /// An item of an array is due.
    pub at_item: bool,
    /// A member, a call or a primary expression has ended.
    pub after_tight: bool,
}

/// Whether a production is an array.
pub(crate) fn is_array(form: Form) -> bool
    ensures { result ≡ spec.is_array form }
{
    match form {
        Form::ArrayLiteral => true,
        _ => false,
    }
}

/// Whether a production is an object.
fn is_object(form: Form) -> bool
    ensures { result ≡ spec.is_object form }
{
    match form {
        Form::ObjectLiteral => true,
        _ => false,
    }
}

/// Whether a production ends with arguments.
fn is_call(form: Form) -> bool
    ensures { result ≡ spec.is_call form }
{
    match form {
        Form::Call | Form::New => true,
        _ => false,
    }
}

/// Whether a production is a pair of parentheses.
pub(crate) fn is_parentheses(form: Form) -> bool
    ensures { result ≡ unsupported.is_parentheses form }
{
    match form {
        Form::Parentheses => true,
        _ => false,
    }
}

/// Whether a production is a member, a call or a primary expression.
fn is_operand(form: Form) -> bool
    ensures { result ≡ unsupported.is_operand form }
{
    match form {
        Form::ArrayLiteral
        | Form::ObjectLiteral
        | Form::Template
        | Form::FunctionExpression
        | Form::New
        | Form::Call
        | Form::Dot
        | Form::Member => true,
        _ => false,
    }
}

/// Whether a property starts where this slot is next.
fn property_next(next: Option<Slot>) -> bool
    ensures { result ≡ spec.property_next (option_map plain_slot next) }
{
    match next {
        Some(Slot::By(Choice::Properties)) => true,
        _ => false,
    }
}

/// Whether a key or a member's name is due.
fn any_name_next(next: Option<Slot>) -> bool
    ensures { result ≡ spec.any_name_next (option_map plain_slot next) }
{
    match next {
        Some(Slot::Text(Class::AnyName)) => true,
        _ => property_next(next),
    }
}

/// Whether a name to bind is due.
fn bound_name_next(next: Option<Slot>) -> bool
    ensures { result ≡ spec.bound_name_next (option_map plain_slot next) }
{
    match next {
        Some(Slot::Text(Class::BoundName)) => true,
        Some(Slot::By(Choice::FunctionName)) => true,
        Some(Slot::By(Choice::Parameters)) => true,
        _ => false,
    }
}

/// Whether items are due.
fn items_next(next: Option<Slot>) -> bool
    ensures { result ≡ spec.items_next (option_map plain_slot next) }
{
    match next {
        Some(Slot::Items(_)) => true,
        _ => false,
    }
}

/// Whether an operand may end before this slot, which is the last of its production or not.
fn tight_next(form: Form, next: Option<Slot>, is_last: bool) -> bool
    ensures { result ≡ spec.tight_next form (option_map plain_slot next) is_last }
{
    match next {
        None => is_operand(form),
        Some(Slot::Place) => is_last && is_operand(form),
        Some(Slot::By(Choice::Arrow)) => is_last && is_parentheses(form),
        Some(_) => false,
    }
}

/// Whether an operand may end where these slots are left.
#[tactic(auto, using(crate::proofs::SightLemmas::tight_is))]
fn is_tight(form: Form, left: &Left) -> bool
    ensures { result ≡ unsupported.operand_over form (plain_slots left.now) }
{
    tight_next(form, left.first(), left.len() == 1)
}

/// Where slots of a production are left.
#[tactic(auto, using(crate::proofs::SightLemmas::due_rules))]
fn due(form: Form, left: &Left) -> Sight
    ensures { spec.SeesDue result form (plain_slots left.now) }
{
    let next = left.first();
    let at_property = property_next(next);
    Sight {
        at_any_name: any_name_next(next),
        at_property,
        at_object: is_object(form) && at_property,
        at_bound_name: bound_name_next(next),
        at_item: is_array(form) && items_next(next),
        after_tight: is_tight(form, left),
    }
}

/// Where none are.
fn elsewhere(at_item: bool, after_tight: bool) -> Sight
    ensures { result ≡ spec.elsewhere at_item after_tight }
{
    Sight {
        at_any_name: false,
        at_property: false,
        at_object: false,
        at_bound_name: false,
        at_item,
        after_tight,
    }
}

/// Whether the innermost frame is an array's items.
fn is_array_frame(frame: &Frame) -> bool
    ensures { result ≡ spec.is_array_frame (plain_frame frame.now) }
{
    match frame {
        Frame::InItems(production, _, _) => is_array(production.form),
        _ => false,
    }
}

/// Whether an item of an array is due where one is.
#[tactic(auto, using(crate::proofs::SightLemmas::item_in))]
fn in_array(stack: &Stack) -> bool
    ensures { result ≡ unsupported.at_item (turns.Item (frames stack.now)) }
{
    match stack.innermost() {
        Some(frame) => is_array_frame(frame),
        None => false,
    }
}

/// What the place of the next token is.
pub(crate) fn seen(place: &Place, stack: &Stack) -> Sight
    ensures { spec.Sees result (config place.now (frames stack.now)) }
{
    match place {
        Place::Due(production, _) => due(production.form, &production.left),
        Place::Expression(_, _) => elsewhere(false, true),
        Place::Item => elsewhere(in_array(stack), false),
        Place::Statement(_, _) | Place::Start | Place::Finished(_) => elsewhere(false, false),
    }
}

/// Where an expression is, if it is a name.
#[tactic(auto, using(js_tree::proofs::Equations::tree_rules))]
fn name_at(expression: &Expr) -> Option<Loc>
    ensures { result ≡ spec.name_at (plain_expr expression.now) }
{
    match expression.node {
        ExprNode::IdentifierReference(_) => expression.loc,
        _ => None,
    }
}

/// Where a part is, if it is a name.
fn name_of(part: &Piece) -> Option<Loc>
    ensures { result ≡ spec.name_of (plain_piece part.now) }
{
    match part {
        Piece::Expression(operand) => name_at(operand.tree.get()),
        _ => None,
    }
}

/// The name that arguments follow.
#[tactic(auto, using(crate::proofs::SightLemmas::named_is))]
fn named_callee(parts: &[Piece]) -> Option<Loc>
    ensures { result ≡ found.named_callee (plain_pieces parts.now) }
{
    match parts {
        [] => None,
        [callee, arguments @ ..] => {
            if is_items(arguments) {
                name_of(callee)
            } else {
                None
            }
        }
    }
}

/// The name whose arguments are whole, where slots of a production are left.
#[tactic(auto, using(crate::proofs::OnStack::no_slot_is))]
fn due_callee(production: &Production) -> Option<Loc>
    ensures { result ≡ spec.due_callee production.now.form (plain_slots production.now.left) (plain_pieces production.now.parts) }
{
    if is_call(production.form) && production.left.len() == 0 {
        named_callee(production.parts.as_slice())
    } else {
        None
    }
}

/// The name whose arguments are whole.
#[tactic(auto, using(crate::proofs::SightLemmas::callee_is))]
pub(crate) fn callee(place: &Place) -> Option<Loc>
    ensures { (fs : List turns.Frame) → result ≡ spec.callee (config place.now fs) }
{
    match place {
        Place::Due(production, _) => due_callee(production),
        _ => None,
    }
}

/// Whether the place is in no function but arrows.
pub(crate) fn outside(place: &Place, stack: &Stack) -> bool
    ensures { result ≡ unsupported.in_no_function (config place.now (frames stack.now)) }
{
    match place {
        Place::Due(production, _) => !(owns(production) || stack.in_function()),
        Place::Expression(_, _) | Place::Statement(_, _) | Place::Item => !stack.in_function(),
        Place::Start | Place::Finished(_) => true,
    }
}
