ghost use Rattle.std.specs.Prelude.{◌≡◌};
ghost use Rattle.js_lexer.specs.private.Class.{test_of};
ghost use Rattle.js_text.specs.Character as spec;
ghost use Rattle.js_text.specs.Lex as lex;
ghost use Rattle.js_text.specs.Position as position;

/// A class of characters.
#[derive(Clone, Copy)]
pub(crate) enum Class {
    /// What an identifier starts with.
    First,
    /// What an identifier goes on with.
    Identifier,
    /// White space and line terminators.
    Gap,
}

impl Class {
    /// Whether a character is of this class.
    pub(crate) fn holds(self, character: char) -> bool
        ensures { result ≡ test_of self character }
    {
        match self {
            Class::First => starts_identifier(character),
            Class::Identifier => continues_identifier(character),
            Class::Gap => is_gap(character),
        }
    }
}

/// Whether a character may stand between two tokens: white space or a line terminator.
#[tactic(auto, unfolding(js_text::specs::Character::is_gap))]
fn is_gap(character: char) -> bool
    ensures { result ≡ spec.is_gap character }
{
    matches!(
        character,
        '\t' | '\n'
            | '\u{B}'
            | '\u{C}'
            | '\r'
            | ' '
            | '\u{A0}'
            | '\u{1680}'
            | '\u{2000}'..='\u{200A}'
            | '\u{2028}'
            | '\u{2029}'
            | '\u{202F}'
            | '\u{205F}'
            | '\u{3000}'
            | '\u{FEFF}'
    )
}

/// Whether a character is a line terminator.
pub(crate) fn is_line_terminator(character: char) -> bool
    ensures { result ≡ position.is_line_terminator character }
{
    matches!(character, '\n' | '\r' | '\u{2028}' | '\u{2029}')
}

/// Whether an identifier may start with a character.
#[tactic(auto, unfolding(js_text::specs::Character::starts_identifier))]
pub(crate) fn starts_identifier(character: char) -> bool
    ensures { result ≡ spec.starts_identifier character }
{
    unicode_ident::is_xid_start(character) | (character == '$') | (character == '_')
}

/// Whether an identifier may go on with a character.
#[tactic(auto, unfolding(js_text::specs::Character::continues_identifier))]
fn continues_identifier(character: char) -> bool
    ensures { result ≡ spec.continues_identifier character }
{
    unicode_ident::is_xid_continue(character)
        | (character == '$')
        | (character == '\u{200C}')
        | (character == '\u{200D}')
}

/// Whether a character is a decimal digit.
#[tactic(auto, unfolding(js_text::specs::Character::is_digit))]
pub(crate) fn is_digit(character: char) -> bool
    ensures { result ≡ spec.is_digit character }
{
    character.is_ascii_digit()
}

/// Whether a string literal may begin with a character.
pub(crate) fn is_quote(character: char) -> bool
    ensures { result ≡ lex.is_quote character }
{
    matches!(character, '\'' | '"')
}
