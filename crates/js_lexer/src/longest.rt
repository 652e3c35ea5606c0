ghost use Rattle.std.specs.Prelude.{◌≡◌, Some, ◌∷◌, drop};
ghost use Rattle.std.specs.Str.{chars};
ghost use Rattle.js_text.specs.Character.{begins_with_digit};
ghost use Rattle.js_text.specs.Punctuator as spec;

use crate::Punctuator;
use crate::character::is_digit;
use js_text::Cursor;

/// Whether a text begins with these characters.
fn begins(text: &str, characters: &[char]) -> bool
    ensures { result ≡ spec.begins_with characters.now (chars text.now) }
{
    let mut cursor = Cursor::new(text);
    for character in characters {
        if cursor.bump() != Some(*character) {
            return false;
        }
    }
    true
}

/// Whether a digit stands after a text's first character.
fn digit_follows(text: &str) -> bool
    ensures { result ≡ begins_with_digit (drop 1 (chars text.now)) }
{
    let mut cursor = Cursor::new(text);
    cursor.bump();
    match cursor.peek() {
        Some(character) => is_digit(character),
        None => false,
    }
}

/// The longest punctuator that a text begins with.
pub(crate) fn longest(text: &str) -> Option<Punctuator>
    ensures { result ≡ spec.longest_punctuator (chars text.now) }
{
    let mut cursor = Cursor::new(text);
    let first = cursor.bump()?;
    longest_from(first, cursor.rest())
}

/// The same, by the text's first character and what stands after it.
fn longest_from(first: char, after: &str) -> Option<Punctuator>
    ensures { result ≡ spec.longest_punctuator (first ∷ chars after.now) }
{
    match first {
        '{' => Some(Punctuator::OpenBrace),
        '}' => Some(Punctuator::CloseBrace),
        '(' => Some(Punctuator::OpenParenthesis),
        ')' => Some(Punctuator::CloseParenthesis),
        '[' => Some(Punctuator::OpenBracket),
        ']' => Some(Punctuator::CloseBracket),
        ';' => Some(Punctuator::Semicolon),
        ',' => Some(Punctuator::Comma),
        '~' => Some(Punctuator::Tilde),
        ':' => Some(Punctuator::Colon),
        '.' => Some(dot(after)),
        '<' => Some(less_than(after)),
        '>' => Some(greater_than(after)),
        '=' => Some(equals(after)),
        '!' => Some(exclamation(after)),
        '+' => Some(plus(after)),
        '-' => Some(minus(after)),
        '*' => Some(star(after)),
        '/' => Some(slash(after)),
        '%' => Some(percent(after)),
        '&' => Some(ampersand(after)),
        '|' => Some(bar(after)),
        '^' => Some(caret(after)),
        '?' => Some(question(after)),
        _ => None,
    }
}

/// The longest punctuator that begins with `.`, by what stands after that.
#[tactic(auto, unfolding(js_text::specs::Punctuator::longest_punctuator))]
fn dot(after: &str) -> Punctuator
    ensures { Some result ≡ spec.longest_punctuator (0x2E ∷ chars after.now) }
{
    if begins(after, &['.', '.']) {
        Punctuator::Ellipsis
    } else {
        Punctuator::Dot
    }
}

/// The longest punctuator that begins with `<`, by what stands after that.
#[tactic(auto, unfolding(js_text::specs::Punctuator::longest_punctuator))]
fn less_than(after: &str) -> Punctuator
    ensures { Some result ≡ spec.longest_punctuator (0x3C ∷ chars after.now) }
{
    if begins(after, &['<', '=']) {
        Punctuator::ShiftLeftAssign
    } else if begins(after, &['=']) {
        Punctuator::LessOrEqual
    } else if begins(after, &['<']) {
        Punctuator::ShiftLeft
    } else {
        Punctuator::LessThan
    }
}

/// The longest punctuator that begins with `>`, by what stands after that.
#[tactic(auto, unfolding(js_text::specs::Punctuator::longest_punctuator))]
fn greater_than(after: &str) -> Punctuator
    ensures { Some result ≡ spec.longest_punctuator (0x3E ∷ chars after.now) }
{
    if begins(after, &['>', '>', '=']) {
        Punctuator::UnsignedShiftRightAssign
    } else if begins(after, &['>', '=']) {
        Punctuator::ShiftRightAssign
    } else if begins(after, &['>', '>']) {
        Punctuator::UnsignedShiftRight
    } else if begins(after, &['=']) {
        Punctuator::GreaterOrEqual
    } else if begins(after, &['>']) {
        Punctuator::ShiftRight
    } else {
        Punctuator::GreaterThan
    }
}

/// The longest punctuator that begins with `=`, by what stands after that.
#[tactic(auto, unfolding(js_text::specs::Punctuator::longest_punctuator))]
fn equals(after: &str) -> Punctuator
    ensures { Some result ≡ spec.longest_punctuator (0x3D ∷ chars after.now) }
{
    if begins(after, &['=', '=']) {
        Punctuator::StrictEqual
    } else if begins(after, &['>']) {
        Punctuator::Arrow
    } else if begins(after, &['=']) {
        Punctuator::Equal
    } else {
        Punctuator::Assign
    }
}

/// The longest punctuator that begins with `!`, by what stands after that.
#[tactic(auto, unfolding(js_text::specs::Punctuator::longest_punctuator))]
fn exclamation(after: &str) -> Punctuator
    ensures { Some result ≡ spec.longest_punctuator (0x21 ∷ chars after.now) }
{
    if begins(after, &['=', '=']) {
        Punctuator::StrictNotEqual
    } else if begins(after, &['=']) {
        Punctuator::NotEqual
    } else {
        Punctuator::Exclamation
    }
}

/// The longest punctuator that begins with `+`, by what stands after that.
#[tactic(auto, unfolding(js_text::specs::Punctuator::longest_punctuator))]
fn plus(after: &str) -> Punctuator
    ensures { Some result ≡ spec.longest_punctuator (0x2B ∷ chars after.now) }
{
    if begins(after, &['+']) {
        Punctuator::Increment
    } else if begins(after, &['=']) {
        Punctuator::AddAssign
    } else {
        Punctuator::Plus
    }
}

/// The longest punctuator that begins with `-`, by what stands after that.
#[tactic(auto, unfolding(js_text::specs::Punctuator::longest_punctuator))]
fn minus(after: &str) -> Punctuator
    ensures { Some result ≡ spec.longest_punctuator (0x2D ∷ chars after.now) }
{
    if begins(after, &['-']) {
        Punctuator::Decrement
    } else if begins(after, &['=']) {
        Punctuator::SubtractAssign
    } else {
        Punctuator::Minus
    }
}

/// The longest punctuator that begins with `*`, by what stands after that.
#[tactic(auto, unfolding(js_text::specs::Punctuator::longest_punctuator))]
fn star(after: &str) -> Punctuator
    ensures { Some result ≡ spec.longest_punctuator (0x2A ∷ chars after.now) }
{
    if begins(after, &['*', '=']) {
        Punctuator::ExponentAssign
    } else if begins(after, &['*']) {
        Punctuator::Exponent
    } else if begins(after, &['=']) {
        Punctuator::MultiplyAssign
    } else {
        Punctuator::Star
    }
}

/// The longest punctuator that begins with `/`, by what stands after that.
#[tactic(auto, unfolding(js_text::specs::Punctuator::longest_punctuator))]
fn slash(after: &str) -> Punctuator
    ensures { Some result ≡ spec.longest_punctuator (0x2F ∷ chars after.now) }
{
    if begins(after, &['=']) {
        Punctuator::DivideAssign
    } else {
        Punctuator::Slash
    }
}

/// The longest punctuator that begins with `%`, by what stands after that.
#[tactic(auto, unfolding(js_text::specs::Punctuator::longest_punctuator))]
fn percent(after: &str) -> Punctuator
    ensures { Some result ≡ spec.longest_punctuator (0x25 ∷ chars after.now) }
{
    if begins(after, &['=']) {
        Punctuator::RemainderAssign
    } else {
        Punctuator::Percent
    }
}

/// The longest punctuator that begins with `&`, by what stands after that.
#[tactic(auto, unfolding(js_text::specs::Punctuator::longest_punctuator))]
fn ampersand(after: &str) -> Punctuator
    ensures { Some result ≡ spec.longest_punctuator (0x26 ∷ chars after.now) }
{
    if begins(after, &['&', '=']) {
        Punctuator::LogicalAndAssign
    } else if begins(after, &['&']) {
        Punctuator::LogicalAnd
    } else if begins(after, &['=']) {
        Punctuator::AndAssign
    } else {
        Punctuator::Ampersand
    }
}

/// The longest punctuator that begins with `|`, by what stands after that.
#[tactic(auto, unfolding(js_text::specs::Punctuator::longest_punctuator))]
fn bar(after: &str) -> Punctuator
    ensures { Some result ≡ spec.longest_punctuator (0x7C ∷ chars after.now) }
{
    if begins(after, &['|', '=']) {
        Punctuator::LogicalOrAssign
    } else if begins(after, &['|']) {
        Punctuator::LogicalOr
    } else if begins(after, &['=']) {
        Punctuator::OrAssign
    } else {
        Punctuator::Bar
    }
}

/// The longest punctuator that begins with `^`, by what stands after that.
#[tactic(auto, unfolding(js_text::specs::Punctuator::longest_punctuator))]
fn caret(after: &str) -> Punctuator
    ensures { Some result ≡ spec.longest_punctuator (0x5E ∷ chars after.now) }
{
    if begins(after, &['=']) {
        Punctuator::XorAssign
    } else {
        Punctuator::Caret
    }
}

/// The longest punctuator that begins with `?`, by what stands after that.
#[tactic(auto, unfolding(js_text::specs::Punctuator::longest_punctuator))]
fn question(after: &str) -> Punctuator
    ensures { Some result ≡ spec.longest_punctuator (0x3F ∷ chars after.now) }
{
    if begins(after, &['?', '=']) {
        Punctuator::CoalesceAssign
    } else if begins(after, &['?']) {
        Punctuator::Coalesce
    } else if begins(after, &['.']) && !digit_follows(after) {
        Punctuator::OptionalChain
    } else {
        Punctuator::Question
    }
}
