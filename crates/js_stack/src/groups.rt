ghost use Rattle.std.specs.Prelude.{◌≡◌, ◌&&◌};
ghost use Rattle.std.specs.Option.{option_map};
ghost use Rattle.js_tree.specs.Tree.{plain_expr, plain_exprs};
ghost use Rattle.js_lexer.specs.Token.{plain_token};
ghost use Rattle.js_reading.specs.Found as found;
ghost use Rattle.js_reading.specs.Turns as turns;
ghost use Rattle.js_reading.specs.Unsupported as unsupported;
ghost use Rattle.js_grammar.specs.View.{plain_slot, plain_slots, plain_wanted};
ghost use Rattle.js_build.specs.View.{plain_piece, plain_pieces};
ghost use Rattle.js_stack.specs.Groups as spec;
ghost use Rattle.js_stack.specs.View.{config, frames, plain_frame};

use crate::have::wanted;
use crate::left::Left;
use crate::objects::is_object;
use crate::production::{Frame, Place, Production};
use crate::stack::Stack;
use js_build::{Piece, is_target};
use js_grammar::{ProductionWord, Slot, Wanted, continues, fits, is_mark, is_word, join};
use js_lexer::Token;
use js_reading::{Choice, Form, Unsupported};
use js_text::Punctuator;
use js_tree::{Expr, ExprNode, Loc};

/// What the frame round a group is.
#[derive(Clone, Copy)]
pub(crate) struct Around {
    /// What it asks of an expression.
    pub(crate) wanted: Wanted,
    /// Whether it is the first part of a `for`, where that is an expression (ECMA-262, 14.7).
    pub(crate) is_head: bool,
    /// Whether it is the operand of an update (13.4).
    pub(crate) is_update: bool,
}

/// Whether a frame is the first part of a `for`, where that is an expression.
#[tactic(auto, using(crate::proofs::GroupLemmas::head_is))]
fn is_head(frame: &Frame) -> bool
    ensures { result ≡ unsupported.is_head (plain_frame frame.now) }
{
    match frame {
        Frame::InExpression(production, Wanted::WithoutIn(_)) => is_first_of_for(production),
        _ => false,
    }
}

/// Whether a production is a `for` before its first part.
fn is_first_of_for(production: &Production) -> bool
    ensures { result ≡ spec.is_first_of_for production.now.form (plain_slots production.now.left) (plain_pieces production.now.parts) }
{
    is_for(production.form) && after_target(&production.left) && production.parts.is_empty()
}

/// Whether a production is a `for`.
fn is_for(form: Form) -> bool
    ensures { result ≡ spec.is_for form }
{
    match form {
        Form::For => true,
        _ => false,
    }
}

/// Whether what stands after a target is all that is left.
#[tactic(auto, using(crate::proofs::GroupLemmas::after_target_is))]
fn after_target(left: &Left) -> bool
    ensures { result ≡ spec.after_target (plain_slots left.now) }
{
    after_target_next(left.first(), left.len() == 1)
}

/// The same by the next slot.
fn after_target_next(next: Option<Slot>, is_last: bool) -> bool
    ensures { result ≡ spec.after_target_next (option_map plain_slot next) is_last }
{
    match next {
        Some(Slot::By(Choice::AfterTarget)) => is_last,
        _ => false,
    }
}

/// Whether a frame is the operand of an update.
#[tactic(auto, using(crate::proofs::GroupLemmas::update_is, crate::proofs::OnStack::no_slot_is))]
fn is_update(frame: &Frame) -> bool
    ensures { result ≡ unsupported.is_update (plain_frame frame.now) }
{
    match frame {
        Frame::InExpression(production, _) => {
            is_prefix_update(production.form)
                && production.left.len() == 0
                && production.parts.is_empty()
        }
        _ => false,
    }
}

/// Whether a production is an update of what stands after it.
fn is_prefix_update(form: Form) -> bool
    ensures { result ≡ spec.is_prefix_update form }
{
    match form {
        Form::PrefixUpdate(_) => true,
        _ => false,
    }
}

/// What the frame round a group is.
fn site(frame: &Frame) -> Around
    ensures { spec.plain_around result ≡ spec.site_of (plain_frame frame.now) }
{
    Around {
        wanted: wanted(frame),
        is_head: is_head(frame),
        is_update: is_update(frame),
    }
}

/// Whether a production is an assignment or an update of what stands before it.
fn assigns(form: Option<Form>) -> bool
    ensures { result ≡ unsupported.assigns form }
{
    match form {
        Some(Form::Assignment(_) | Form::Postfix(_)) => true,
        _ => false,
    }
}

/// Whether a token is `in` or `of`.
fn is_each(token: Token<'_>) -> bool
    ensures { result ≡ unsupported.is_each (plain_token token.entry) }
{
    is_word(ProductionWord::In, token.kind) || is_word(ProductionWord::Of, token.kind)
}

/// Whether a token is `=>` where an arrow may have it.
pub(crate) fn on_its_line(token: Token<'_>) -> bool
    ensures { result ≡ found.on_its_line (plain_token token.entry) }
{
    is_mark(Punctuator::Arrow, token.kind) && !token.line_terminator_before
}

/// Whether a place takes what stands in brackets, at this level.
fn takes(wanted: Wanted, level: u8) -> bool
    ensures { result ≡ spec.takes (plain_wanted wanted) level }
{
    fits(wanted, level, false)
}

/// Whether a token goes on with what stands in brackets.
fn goes_on(wanted: Wanted, token: Token<'_>) -> bool
    ensures { result ≡ spec.goes_on (plain_wanted wanted) (plain_token token.entry) }
{
    continues(wanted, 22, token)
}

/// Whether a pair of parentheses stands there before this token where a target does.
fn takes_target(around: Around, token: Token<'_>) -> bool
    ensures { result ≡ spec.takes_target (spec.plain_around around) (plain_token token.entry) }
{
    takes(around.wanted, 21)
        && (assigns(join(token)) && goes_on(around.wanted, token)
            || around.is_head && is_each(token)
            || around.is_update && !goes_on(around.wanted, token))
}

/// Whether an array or an object stands there before this token where a pattern does.
fn takes_pattern(around: Around, token: Token<'_>) -> bool
    ensures { result ≡ spec.takes_pattern (spec.plain_around around) (plain_token token.entry) }
{
    takes(around.wanted, 22)
        && (is_mark(Punctuator::Assign, token.kind) && goes_on(around.wanted, token)
            || around.is_head && is_each(token))
}

/// Whether no arrow has followed parentheses yet.
#[tactic(auto, using(crate::proofs::GroupLemmas::arrow_is))]
pub(crate) fn arrow_left(left: &Left) -> bool
    ensures { result ≡ spec.arrow_left (plain_slots left.now) }
{
    arrow_next(left.first(), left.len() == 1)
}

/// The same by the next slot.
fn arrow_next(next: Option<Slot>, is_last: bool) -> bool
    ensures { result ≡ spec.arrow_next (option_map plain_slot next) is_last }
{
    match next {
        Some(Slot::By(Choice::Arrow)) => is_last,
        _ => false,
    }
}

/// Whether an expression is a target, or one in parentheses.
#[tactic(auto, using(js_tree::proofs::Equations::tree_rules))]
fn target_within(expression: &Expr) -> bool
    ensures { result ≡ spec.target_within (plain_expr expression.now) }
{
    let mut inner = expression;
    while let ExprNode::Parenthesized(next) = &inner.node {
        inner = next.get();
    }
    is_target(inner)
}

/// Whether an expression is the only one, and a target.
#[tactic(auto, using(crate::proofs::GroupLemmas::no_exprs_is))]
fn sole_target(expressions: &[Expr]) -> bool
    ensures { result ≡ spec.sole_target (plain_exprs expressions.now) }
{
    match expressions {
        [] => false,
        [first, others @ ..] => others.is_empty() && target_within(first),
    }
}

/// Whether a part has a target alone, with nothing after it.
fn holds_sole(part: &Piece) -> bool
    ensures { result ≡ spec.holds_sole (plain_piece part.now) }
{
    match part {
        Piece::Expressions(trailing, list) => !*trailing && sole_target(list.items.as_slice()),
        _ => false,
    }
}

/// Whether parentheses hold a target alone, or one in more parentheses.
#[tactic(auto, using(crate::proofs::PartsLemmas::no_part_is))]
fn holds_target(parts: &[Piece]) -> bool
    ensures { result ≡ spec.holds_target (plain_pieces parts.now) }
{
    match parts {
        [] => false,
        [first, others @ ..] => others.is_empty() && holds_sole(first),
    }
}

/// Whether a part has items.
fn has_items(part: &Piece) -> bool
    ensures { result ≡ spec.has_items (plain_piece part.now) }
{
    match part {
        Piece::Expressions(_, _) => true,
        _ => false,
    }
}

/// Whether items are the only part.
#[tactic(auto, using(crate::proofs::PartsLemmas::no_part_is))]
pub(crate) fn is_items(parts: &[Piece]) -> bool
    ensures { result ≡ spec.is_items (plain_pieces parts.now) }
{
    match parts {
        [] => false,
        [first, others @ ..] => has_items(first) && others.is_empty(),
    }
}

/// Whether this is a target in parentheses.
fn is_target_there(production: &Production, around: Around, token: Token<'_>) -> bool
    ensures { result ≡ spec.target (spec.plain_around around) (plain_slots production.now.left) (plain_pieces production.now.parts) (plain_token token.entry) }
{
    takes_target(around, token)
        && arrow_left(&production.left)
        && !on_its_line(token)
        && holds_target(production.parts.as_slice())
}

/// Whether this is an array where a pattern stands.
#[tactic(auto, using(crate::proofs::OnStack::no_slot_is))]
fn is_array_there(production: &Production, around: Around, token: Token<'_>) -> bool
    ensures { result ≡ spec.array (spec.plain_around around) (plain_slots production.now.left) (plain_pieces production.now.parts) (plain_token token.entry) }
{
    takes_pattern(around, token)
        && production.left.len() == 0
        && is_items(production.parts.as_slice())
}

/// Whether this is an object where a pattern stands.
#[tactic(auto, using(crate::proofs::OnStack::no_slot_is))]
fn is_object_there(production: &Production, around: Around, token: Token<'_>) -> bool
    ensures { result ≡ spec.object (spec.plain_around around) (plain_slots production.now.left) (plain_pieces production.now.parts) (plain_token token.entry) }
{
    takes_pattern(around, token)
        && production.left.len() == 0
        && is_object(production.parts.as_slice())
}

/// A form that starts there, if it does.
fn when(holds: bool, what: Unsupported, start: Loc) -> Option<(Unsupported, Loc)>
    ensures { result ≡ found.when holds what start }
{
    if holds { Some((what, start)) } else { None }
}

/// What a group in a frame begins.
fn found_in(production: &Production, around: Around, token: Token<'_>) -> Option<(Unsupported, Loc)>
    ensures { result ≡ spec.found_in (spec.plain_around around) production.now.form production.now.start (plain_slots production.now.left) (plain_pieces production.now.parts) (plain_token token.entry) }
{
    match production.form {
        Form::Parentheses => when(
            is_target_there(production, around, token),
            Unsupported::ParenthesizedTarget,
            production.start,
        ),
        Form::ArrayLiteral => when(
            is_array_there(production, around, token),
            Unsupported::BindingPattern,
            production.start,
        ),
        Form::ObjectLiteral => when(
            is_object_there(production, around, token),
            Unsupported::BindingPattern,
            production.start,
        ),
        _ => None,
    }
}

/// What the group that is whole begins with this token.
#[tactic(auto, using(crate::proofs::GroupLemmas::group_is))]
fn due(
    production: &Production,
    last: Loc,
    stack: &Stack,
    token: Token<'_>,
) -> Option<(Unsupported, Loc)>
    ensures { result ≡ found.group (turns.Due production.now.form production.now.start (plain_slots production.now.left) (plain_pieces production.now.parts) last (frames stack.now)) (plain_token token.entry) }
{
    match stack.innermost() {
        Some(frame) => found_in(production, site(frame), token),
        None => None,
    }
}

/// A group in brackets that is whole with the token before, and what it begins with this one.
pub(crate) fn group(place: &Place, stack: &Stack, token: Token<'_>) -> Option<(Unsupported, Loc)>
    ensures { result ≡ found.group (config place.now (frames stack.now)) (plain_token token.entry) }
{
    match place {
        Place::Due(production, last) => due(production, *last, stack, token),
        _ => None,
    }
}
