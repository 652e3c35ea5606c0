ghost use Rattle.std.specs.Prelude.{◌≡◌, [], ◌≤◌, ◌-◌, take, drop, IfOk, IfErr, OnErr, Some, None, encode_utf8_all};
ghost use Rattle.std.specs.Str.{chars};
ghost use Rattle.js_lexer.specs.Token.{plain_token};
ghost use Rattle.js_text.specs.Lex as spec;
ghost use Rattle.js_text.specs.Position.{position_of};
ghost use Rattle.js_text.specs.Token as plain;
ghost use Rattle.js_text.specs.declared.goal.Goal.TheVariants as goal;

use crate::gap::skip_gap;
use crate::kind::kind;
use crate::{Goal, Span, Token};
use js_terms::{Loc, Pos};
use js_text::{Cursor, Text};
use std::marker::Model;

/// No token stands at this place for the goal that was asked for.
#[derive(Clone, Copy, Debug, PartialEq, Eq)]
pub struct LexFault {
    /// How many bytes of the text stand before the place.
    pub at: usize,
    /// The line and the column of the place.
    pub place: Pos,
}

/// The tokens of a text, one after another, each for a goal. It takes no memory. Contracts see it as
/// the place where it stands.
#[derive(Debug, Drop)]
pub struct Lexer<'a> {
    cursor: Cursor<'a>,
}

impl<'a> Model for Lexer<'a> {
    ghost use Rattle.js_text.specs.Place.{Place};

    ghost Value = { Place };

    ghost view = { λ lexer. lexer.cursor };
}

impl<'a> Lexer<'a> {
    /// Before the first token of a text.
    pub fn new(text: &'a Text) -> Lexer<'a>
        ensures before { result.before ≡ [] }
        ensures after { result.after ≡ chars text.now }
    {
        Lexer {
            cursor: Cursor::new(text.as_str()),
        }
    }

    /// Another lexer at the same place.
    pub fn again(&self) -> Lexer<'a>
        ensures { result ≡ self.now }
    {
        Lexer {
            cursor: self.cursor.again(),
        }
    }

    /// Goes on over white space and comments to where the next token starts, if one does.
    pub fn pass_gap(&mut self)
        ensures { self.new ≡ spec.token_place goal.Div self.old }
    {
        skip_gap(&mut self.cursor, Goal::Div);
    }

    /// The token that stands next for a goal, or the place where none does. The end of the text is a
    /// token, and stands there however often it is asked for. After a fault the lexer stands where it
    /// stood before, so that another goal may be tried.
    pub fn next(&mut self, goal: Goal) -> Result<Token<'a>, LexFault>
        ensures token { IfOk result (λ token. spec.next_token goal self.old ≡ Some (plain_token token, self.new)) }
        ensures lex { IfOk result (λ token. spec.Lex goal (spec.characters_of self.old) (spec.offset_of self.old) (plain_token token)) }

        ensures fault { OnErr result (spec.next_token goal self.old ≡ None) }
        ensures no_lex { OnErr result ((token : plain.Token) → ¬ spec.Lex goal (spec.characters_of self.old) (spec.offset_of self.old) token) }
        ensures fault_at { IfErr result (λ fault. fault.at ≡ spec.offset_of (spec.token_place goal self.old)) }
        ensures fault_place { IfErr result (λ fault. fault.place ≡ position_of (spec.token_place goal self.old)) }
        ensures unmoved { OnErr result (self.new ≡ self.old) }

        ensures text { spec.characters_of self.new ≡ spec.characters_of self.old }
        ensures spelled { IfOk result (λ token. plain.spelling (plain_token token).kind
            ≡ take (token.end - token.start) (drop token.start (encode_utf8_all (spec.characters_of self.old)))) }
        ensures after_the_last { IfOk result (λ token. spec.offset_of self.old ≤ token.start) }
        ensures in_order { IfOk result (λ token. token.start ≤ token.end) }
        ensures stands_after { IfOk result (λ token. spec.offset_of self.new ≡ token.end) }
    {
        let mut cursor = self.cursor.again();
        match next_of(&mut cursor, goal) {
            Ok(token) => {
                self.cursor = cursor;
                Ok(token)
            }
            Err(fault) => Err(fault),
        }
    }
}

/// The token that stands next for a goal, over which the cursor moves; or the place where none does,
/// and then the cursor is somewhere after its place.
fn next_of<'a>(cursor: &mut Cursor<'a>, goal: Goal) -> Result<Token<'a>, LexFault>
    ensures token { IfOk result (λ token. spec.next_token goal cursor.old ≡ Some (plain_token token, cursor.new)) }
    ensures fault { OnErr result (spec.next_token goal cursor.old ≡ None) }
    ensures fault_at { IfErr result (λ fault. fault.at ≡ spec.offset_of (spec.token_place goal cursor.old)) }
    ensures fault_place { IfErr result (λ fault. fault.place ≡ position_of (spec.token_place goal cursor.old)) }
{
    let gap = skip_gap(cursor, goal);
    let at = cursor.at();
    let place = cursor.position();
    let Some(kind) = kind(cursor, goal) else {
        return Err(LexFault { at, place });
    };
    Ok(Token {
        kind,
        start: at,
        end: cursor.at(),
        loc: Loc {
            start: place,
            end: cursor.position(),
        },
        line_terminator_before: gap.line_terminator,
        comments: gap.comments.unwrap_or(Span { start: at, end: at }),
    })
}
