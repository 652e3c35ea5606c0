ghost use Rattle.std.specs.Prelude.{◌≡◌};
ghost use Rattle.js_reading.specs.Turns as turns;
ghost use Rattle.js_grammar.specs.View.{plain_slot, plain_slots};
ghost use Rattle.js_stack.specs.Goal as spec;
ghost use Rattle.js_stack.specs.View.{frames};

use crate::left::Left;
use crate::production::Production;
use crate::stack::Stack;
use js_grammar::{Slot, strength};
use js_lexer::Goal;
use js_reading::{Choice, Form};

/// Whether a production is an expression that may end with the token before its last slots.
fn makes_expression(form: Form) -> bool
    ensures { result ≡ turns.makes_expression form }
{
    1 <= strength(Some(form)) || is_prefix(form)
}

/// Whether it is one that begins with a token, and may end with another.
fn is_prefix(form: Form) -> bool
    ensures { result ≡ spec.is_prefix form }
{
    match form {
        Form::Parentheses
        | Form::ArrayLiteral
        | Form::ObjectLiteral
        | Form::Template
        | Form::FunctionExpression
        | Form::New => true,
        _ => false,
    }
}

/// Whether no token need follow these slots.
#[tactic(auto, using(crate::proofs::GoalLemmas::over_none, crate::proofs::GoalLemmas::over_some))]
fn is_over(left: &Left) -> bool
    ensures { result ≡ turns.is_over (plain_slots left.now) }
{
    match left.first() {
        None => true,
        Some(next) => {
            let is_last = left.len() == 1;
            over_next(next, is_last)
        }
    }
}

/// The same of the next of them.
fn over_next(next: Slot, is_last: bool) -> bool
    ensures { result ≡ spec.over_next (plain_slot next) is_last }
{
    match next {
        Slot::Place => is_last,
        Slot::By(Choice::Arrow) => is_last,
        _ => false,
    }
}

/// Whether the body of an arrow has ended with its braces.
#[tactic(auto, using(crate::proofs::GoalLemmas::braced_none, crate::proofs::GoalLemmas::braced_some))]
fn is_braced_arrow(form: Form, left: &Left) -> bool
    ensures { result ≡ turns.is_braced_arrow form (plain_slots left.now) }
{
    match left.first() {
        None => false,
        Some(next) => {
            let is_last = left.len() == 1;
            is_arrow(form) & place_next(next, is_last)
        }
    }
}

/// Whether a production may be an arrow function.
fn is_arrow(form: Form) -> bool
    ensures { result ≡ spec.is_arrow form }
{
    match form {
        Form::Parentheses | Form::ArrowOfName => true,
        _ => false,
    }
}

/// Whether nothing but a place is left.
fn place_next(next: Slot, is_last: bool) -> bool
    ensures { result ≡ spec.place_next (plain_slot next) is_last }
{
    match next {
        Slot::Place => is_last,
        _ => false,
    }
}

/// The goal after an expression.
pub(crate) fn after_expression(stack: &Stack) -> Goal
    ensures { result ≡ turns.after_expression (frames stack.now) }
{
    if stack.in_template() {
        Goal::Template
    } else {
        Goal::Div
    }
}

/// The goal where slots of a production are left.
pub(crate) fn due_goal(stack: &Stack, production: &Production) -> Goal
    ensures { result ≡ spec.due_goal production.now.form (plain_slots production.now.left) (frames stack.now) }
{
    if is_braced_arrow(production.form, &production.left) {
        if stack.in_template() {
            Goal::Template
        } else {
            Goal::RegExp
        }
    } else if makes_expression(production.form) && is_over(&production.left) {
        after_expression(stack)
    } else {
        Goal::RegExp
    }
}
