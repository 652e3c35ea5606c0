ghost use Rattle.std.specs.Prelude.{◌≡◌, not, ◌&&◌, ◌||◌, codes, IfOk, Some};
ghost use Rattle.js_terms.specs.declared.place.Loc.{Loc};
ghost use Rattle.js_text.specs.declared.punctuator.Punctuator.TheVariants as P;
ghost use Rattle.js_lexer.specs.Token.{plain_token};
ghost use Rattle.js_reading.specs.declared.class.Class.TheVariants as slot;
ghost use Rattle.js_reading.specs.Productions as productions;
ghost use Rattle.js_reading.specs.Turns.{Config};
ghost use Rattle.js_reading.specs.Unsupported as unsupported;
ghost use Rattle.js_reading.specs.Found as spec;
ghost use Rattle.js_stack.specs.Sight.{Sees};

use items::Memory;
use js_build::{is_keyword, is_proto_string};
use js_grammar::is_mark;
use js_lexer::{Punctuator, Token, TokenKind, name_of, units_of};
use js_reading::Unsupported;
use js_stack::Sight;
use js_tree::Loc;
use std::alloc::Global;

/// A form that is left out, and where its first token stands.
pub(crate) type Find = Option<(Unsupported, Loc)>;

/// A form whose first token is this one, where it is found.
fn when(found: bool, form: Unsupported, token: Token<'_>) -> Find
    ensures { result ≡ spec.when found form (plain_token token.entry).loc }
{
    if found { Some((form, token.loc)) } else { None }
}

/// Whether a token is this word, without an escape.
pub(crate) fn is_word(word: &str, token: Token<'_>) -> bool
    ensures { result ≡ productions.is_word word.now (plain_token token.entry) }
{
    match token.kind {
        TokenKind::Word(text) => text == word,
        _ => false,
    }
}

/// Whether a token is this punctuator.
fn is(mark: Punctuator, token: Token<'_>) -> bool
    ensures { result ≡ productions.is_mark mark (plain_token token.entry) }
{
    is_mark(mark, token.kind)
}

/// Whether a token is this punctuator, at a place of some kind.
fn is_at(mark: Punctuator, token: Token<'_>, place: bool) -> bool
    ensures { result ≡ (productions.is_mark mark (plain_token token.entry) && place) }
{
    is(mark, token) && place
}

/// Whether a token is this word, where no word is a key or a member's name.
fn is_free(named: bool, word: &str, token: Token<'_>) -> bool
    ensures { result ≡ (productions.is_word word.now (plain_token token.entry) && not named) }
{
    is_word(word, token) && !named
}

/// Whether a token is an operator of a logical assignment.
fn is_logical(token: Token<'_>) -> bool
    ensures { result ≡ spec.is_logical (plain_token token.entry) }
{
    is(Punctuator::LogicalAndAssign, token)
        || is(Punctuator::LogicalOrAssign, token)
        || is(Punctuator::CoalesceAssign, token)
}

/// Whether a token is a numeral with `n`.
fn is_bigint(token: Token<'_>) -> bool
    ensures { result ≡ unsupported.is_bigint (plain_token token.entry).kind }
{
    match token.kind {
        TokenKind::BigInt(_) => true,
        _ => false,
    }
}

/// Whether a token is a template, or its first part.
fn is_template(token: Token<'_>) -> bool
    ensures { result ≡ unsupported.is_template (plain_token token.entry).kind }
{
    match token.kind {
        TokenKind::NoSubstitutionTemplate(_) | TokenKind::TemplateHead(_) => true,
        _ => false,
    }
}

/// Whether a token is a template after what it would go on with.
fn is_tagged(token: Token<'_>, tight: bool) -> bool
    ensures { result ≡ (unsupported.is_template (plain_token token.entry).kind && tight) }
{
    is_template(token) && tight
}

/// Whether a token opens a pattern where a name to bind is due.
fn opens_pattern(token: Token<'_>, bound: bool) -> bool
    ensures { result ≡ (spec.opens_pattern (plain_token token.entry) && bound) }
{
    (is(Punctuator::OpenBracket, token) || is(Punctuator::OpenBrace, token)) && bound
}

/// Whether a token is `=>`.
pub(crate) fn is_arrow(token: Token<'_>) -> bool
    ensures { result ≡ productions.is_mark P.Arrow (plain_token token.entry) }
{
    is(Punctuator::Arrow, token)
}

/// A form that one token tells, with the place before it.
pub(crate) fn one(sight: Sight, token: Token<'_>) -> Find
    ensures { (c : Config) → Sees sight c → result ≡ spec.one c (plain_token token.entry) }
{
    let named = sight.at_any_name;
    let form = if is_free(named, "class", token) {
        Unsupported::ClassForm
    } else if is_free(named, "super", token) {
        Unsupported::Super
    } else if is_free(named, "import", token) {
        Unsupported::Import
    } else if is_free(named, "export", token) {
        Unsupported::Export
    } else if is(Punctuator::Ellipsis, token) {
        Unsupported::Spread
    } else if is(Punctuator::OptionalChain, token) {
        Unsupported::OptionalChain
    } else if is_logical(token) {
        Unsupported::LogicalAssignment
    } else if is_at(Punctuator::Star, token, sight.at_property) {
        Unsupported::Generator
    } else if is_bigint(token) {
        Unsupported::BigIntLiteral
    } else if is_at(Punctuator::Comma, token, sight.at_item) {
        Unsupported::Elision
    } else if is_tagged(token, sight.after_tight) {
        Unsupported::TaggedTemplate
    } else if opens_pattern(token, sight.at_bound_name) {
        Unsupported::BindingPattern
    } else {
        return None;
    };
    Some((form, token.loc))
}

/// Whether a token is a name that may be bound.
fn is_bound_name(alloc: Global, token: Token<'_>) -> Result<bool, Memory>
    ensures { IfOk result (λ is. is ≡ productions.is_class slot.BoundName (plain_token token.entry)) }
{
    match token.kind {
        TokenKind::Word(word) => Ok(!is_keyword(word)),
        TokenKind::EscapedWord(word) => {
            let name = name_of(alloc, word)?;
            Ok(!is_keyword(name.as_str()))
        }
        _ => Ok(false),
    }
}

/// Whether a token is a property's key, or opens one.
fn is_key(token: Token<'_>) -> bool
    ensures { result ≡ spec.is_key (plain_token token.entry) }
{
    match token.kind {
        TokenKind::Word(_) | TokenKind::EscapedWord(_) => true,
        TokenKind::StringLiteral(_) | TokenKind::Numeral(_) => true,
        TokenKind::Punctuator(Punctuator::OpenBracket) => true,
        _ => false,
    }
}

/// Whether a token is a property's key on the line of the token before, or opens one.
fn is_key_on_line(token: Token<'_>) -> bool
    ensures { result ≡ (spec.is_key (plain_token token.entry) && not (plain_token token.entry).line_terminator_before) }
{
    is_key(token) && !token.line_terminator_before
}

/// `new.` of `new.target`.
fn is_new_target(named: bool, token: Token<'_>, next: Token<'_>) -> bool
    ensures { result ≡ ((productions.is_word (codes "new") (plain_token token.entry) && not named) && productions.is_mark P.Dot (plain_token next.entry)) }
{
    is_free(named, "new", token) && is(Punctuator::Dot, next)
}

/// `function` on the line of the token before.
fn is_function_on_line(token: Token<'_>) -> bool
    ensures { result ≡ (productions.is_word (codes "function") (plain_token token.entry) && not (plain_token token.entry).line_terminator_before) }
{
    is_word("function", token) && !token.line_terminator_before
}

/// `async function`.
fn is_async_function(named: bool, token: Token<'_>, next: Token<'_>) -> bool
    ensures { result ≡ ((productions.is_word (codes "async") (plain_token token.entry) && not named) && (productions.is_word (codes "function") (plain_token next.entry) && not (plain_token next.entry).line_terminator_before)) }
{
    is_free(named, "async", token) && is_function_on_line(next)
}

/// `async` before a key.
fn is_async_method(property: bool, token: Token<'_>, next: Token<'_>) -> bool
    ensures { result ≡ (productions.is_word (codes "async") (plain_token token.entry) && (property && (spec.is_key (plain_token next.entry) && not (plain_token next.entry).line_terminator_before))) }
{
    is_word("async", token) && (property && is_key_on_line(next))
}

/// `function*`.
fn is_generator(named: bool, token: Token<'_>, next: Token<'_>) -> bool
    ensures { result ≡ ((productions.is_word (codes "function") (plain_token token.entry) && not named) && productions.is_mark P.Star (plain_token next.entry)) }
{
    is_free(named, "function", token) && is(Punctuator::Star, next)
}

/// `get` or `set` before a key.
fn is_accessor(property: bool, token: Token<'_>, next: Token<'_>) -> bool
    ensures { result ≡ ((productions.is_word (codes "get") (plain_token token.entry) || productions.is_word (codes "set") (plain_token token.entry)) && (property && spec.is_key (plain_token next.entry))) }
{
    (is_word("get", token) || is_word("set", token)) && (property && is_key(next))
}

/// A name before `=` in braces.
fn is_shorthand(
    alloc: Global,
    property: bool,
    token: Token<'_>,
    next: Token<'_>,
) -> Result<bool, Memory>
    ensures { IfOk result (λ is. is ≡ (productions.is_class slot.BoundName (plain_token token.entry) && (property && productions.is_mark P.Assign (plain_token next.entry)))) }
{
    Ok(is_bound_name(alloc, token)? && (property && is(Punctuator::Assign, next)))
}

/// A form that two tokens tell, with the place before them.
pub(crate) fn two(
    alloc: Global,
    sight: Sight,
    token: Token<'_>,
    next: Token<'_>,
) -> Result<Find, Memory>
    ensures { IfOk result (λ find. (c : Config) → Sees sight c → find ≡ spec.two c (plain_token token.entry) (plain_token next.entry)) }
{
    let named = sight.at_any_name;
    let property = sight.at_property;
    let form = if is_new_target(named, token, next) {
        Unsupported::NewTarget
    } else if is_async_function(named, token, next) {
        Unsupported::Async
    } else if is_async_method(property, token, next) {
        Unsupported::Async
    } else if is_generator(named, token, next) {
        Unsupported::Generator
    } else if is_accessor(property, token, next) {
        Unsupported::Accessor
    } else if is_shorthand(alloc, property, token, next)? {
        Unsupported::BindingPattern
    } else {
        return Ok(None);
    };
    Ok(Some((form, token.loc)))
}

/// Whether a token is a name that may be bound, on the line of the token before.
fn is_name_on_line(alloc: Global, token: Token<'_>) -> Result<bool, Memory>
    ensures { IfOk result (λ is. is ≡ (productions.is_class slot.BoundName (plain_token token.entry) && not (plain_token token.entry).line_terminator_before)) }
{
    Ok(is_bound_name(alloc, token)? && !token.line_terminator_before)
}

/// `async`, a name and `=>`.
pub(crate) fn three(
    alloc: Global,
    sight: Sight,
    token: Token<'_>,
    name: Token<'_>,
    arrow: Token<'_>,
) -> Result<Find, Memory>
    ensures { IfOk result (λ find. (c : Config) → Sees sight c → find ≡ spec.three c (plain_token token.entry) (plain_token name.entry) (plain_token arrow.entry)) }
{
    if !is_free(sight.at_any_name, "async", token) {
        return Ok(None);
    }
    let found = is_name_on_line(alloc, name)? && is(Punctuator::Arrow, arrow);
    Ok(when(found, Unsupported::Async, token))
}

/// Whether a token is the key `__proto__`.
fn is_proto_word(alloc: Global, token: Token<'_>) -> Result<bool, Memory>
    ensures { IfOk result (λ is. is ≡ productions.is_proto_word (plain_token token.entry).kind) }
{
    match token.kind {
        TokenKind::Word(word) => Ok(word == "__proto__"),
        TokenKind::EscapedWord(word) => {
            let name = name_of(alloc, word)?;
            Ok(name.as_str() == "__proto__")
        }
        TokenKind::StringLiteral(spelling) => {
            let units = units_of(alloc, spelling)?;
            Ok(is_proto_string(units.as_slice()))
        }
        _ => Ok(false),
    }
}

/// The key `__proto__` and `:` in an object.
pub(crate) fn proto_key(
    alloc: Global,
    sight: Sight,
    token: Token<'_>,
    next: Token<'_>,
) -> Result<Find, Memory>
    ensures { IfOk result (λ find. (c : Config) → Sees sight c → find ≡ spec.proto_key c (plain_token token.entry) (plain_token next.entry)) }
{
    if !sight.at_object {
        return Ok(None);
    }
    if !is(Punctuator::Colon, next) {
        return Ok(None);
    }
    let found = is_proto_word(alloc, token)?;
    Ok(when(found, Unsupported::Proto, token))
}

/// Whether `async` stands before a `(` on its line.
pub(crate) fn opens_call(token: Token<'_>, opening: Token<'_>) -> bool
    ensures { result ≡ spec.opens_call (plain_token token.entry) (plain_token opening.entry) }
{
    is_word("async", token)
        && (is(Punctuator::OpenParenthesis, opening) && !opening.line_terminator_before)
}

/// Whether two locations start at one place.
pub(crate) fn same_start(one: Loc, other: Loc) -> bool
    ensures { result ≡ spec.same_start one other }
{
    one.start.line == other.start.line && one.start.column == other.start.column
}

/// Whether one of these starts where a location does.
fn starts(location: Loc, others: &[Loc]) -> bool
    ensures { result ≡ spec.starts location others.now }
{
    for other in others {
        if same_start(location, *other) {
            return true;
        }
    }
    false
}

/// An arrow whose parameters are arguments of a name, which is one of these.
pub(crate) fn arrow_after(asyncs: &[Loc], callee: Option<Loc>, token: Token<'_>) -> Find
    ensures { (turns : spec.Turns) → ((l : Loc) → spec.starts l asyncs.now ≡ spec.starts l (spec.asyncs turns)) → result ≡ spec.arrow_after turns callee (plain_token token.entry) }
{
    let Some(location) = callee else {
        return None;
    };
    if is(Punctuator::Arrow, token) && starts(location, asyncs) {
        Some((Unsupported::Async, location))
    } else {
        None
    }
}

/// `this`, where the place is in no function or in one.
pub(crate) fn this_outside(sight: Sight, outside: bool, token: Token<'_>) -> Find
    ensures { (c : Config) → Sees sight c → outside ≡ unsupported.in_no_function c → result ≡ spec.outside c (plain_token token.entry) }
{
    let found = is_free(sight.at_any_name, "this", token) && outside;
    when(found, Unsupported::ThisOutside, token)
}
