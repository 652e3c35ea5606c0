ghost use Rattle.std.specs.Prelude.{◌≡◌, IfOk};
ghost use Rattle.std.specs.Option.{option_map};
ghost use Rattle.js_lexer.specs.Token.{plain_token};
ghost use Rattle.js_reading.specs.Found as found;
ghost use Rattle.js_reading.specs.Open as levels;
ghost use Rattle.js_reading.specs.Turns as turns;
ghost use Rattle.js_reading.specs.Unsupported as unsupported;
ghost use Rattle.js_stack.specs.Reader.{machine, height_of, statements_of, Takes, ended};
ghost use Rattle.js_stack.specs.Sight as sight;
ghost use Rattle.js_stack.specs.Sight.{Sees};

use crate::Refusal;
use crate::goal::{after_expression, due_goal};
use crate::groups::group;
use crate::parameters::parameter;
use crate::production::{Place, discard_place};
use crate::sight::{Sight, callee, outside, seen};
use crate::stack::{Stack, sum};
use crate::turn::turn;
use items::Memory;
use js_build::Statements;
use js_lexer::{Goal, Token};
use js_reading::Unsupported;
use js_tree::Loc;
use std::alloc::Global;
use std::marker::Model;
use std::mem;

/// Reads a file, one token after another. Contracts see where the grammar's machine stands, by `machine`.
#[derive(Drop)]
pub struct Reader {
    alloc: Global,
    stack: Stack,
    place: Place,
}

impl Model for Reader {
    ghost use Rattle.std.specs.Prelude.{List};
    ghost use Rattle.std.specs.Coded.{codes};
    ghost use Rattle.js_stack.specs.declared.production.Frame.{Frame};
    ghost use Rattle.js_stack.specs.declared.production.Place.{Place};
    ghost use Rattle.js_stack.specs.contracts.production.Frame as of_frame;
    ghost use Rattle.js_stack.specs.contracts.production.Place as of_place;

    ghost Value = { Place × List Frame };

    ghost coded = { Prim.hlevel (codes, of_frame.the_row.coded, of_place.the_row.coded) };

    ghost view = { λ reader. (reader.place, reader.stack) };
}

impl Reader {
    /// Before the first token.
    pub fn new(alloc: Global) -> Reader
        ensures { machine result ≡ turns.Start }
    {
        Reader {
            alloc,
            stack: Stack::new(alloc),
            place: Place::Start,
        }
    }

    /// Takes the next token. After an error it takes none.
    pub fn take(&mut self, token: Token<'_>) -> Result<(), Refusal>
        ensures { Takes result (machine self.old) (machine self.new) (plain_token token.entry) }
    {
        let place = mem::replace(&mut self.place, Place::Item);
        match turn(self.alloc, &mut self.stack, place, token) {
            Ok(next) => {
                self.place = next;
                Ok(())
            }
            Err(why) => {
                self.stack = Stack::new(self.alloc);
                Err(why)
            }
        }
    }

    /// How high the tree is at least of each file that begins with the tokens so far. No memory holds a tree of 2^64 levels.
    pub fn floor(&self) -> Result<u64, Memory>
        ensures { IfOk result (λ height. height ≡ levels.floor (machine self.now)) }
    {
        match &self.place {
            Place::Due(production, _) => self.stack.floor(sum(production.parts.height(), 1)?),
            Place::Expression(operand, _) => self.stack.floor(operand.height),
            Place::Statement(body, _) => self.stack.floor(body.height),
            Place::Item => self.stack.floor(0),
            Place::Start | Place::Finished(_) => Ok(0),
        }
    }

    /// The goal with which the next token is asked for (12.1).
    pub fn goal(&self) -> Goal
        ensures { result ≡ turns.goal_of_place (machine self.now) }
    {
        match &self.place {
            Place::Due(production, _) => due_goal(&self.stack, production),
            Place::Expression(_, _) => after_expression(&self.stack),
            Place::Statement(_, _) | Place::Item | Place::Start | Place::Finished(_) => {
                Goal::RegExp
            }
        }
    }

    /// What the place of the next token is.
    pub fn sight(&self) -> Sight
        ensures { Sees result (machine self.now) }
    {
        seen(&self.place, &self.stack)
    }

    /// A group in brackets that is whole with the token before, and what it begins with this one.
    pub fn group(&self, token: Token<'_>) -> Option<(Unsupported, Loc)>
        ensures { result ≡ found.group (machine self.now) (plain_token token.entry) }
    {
        group(&self.place, &self.stack, token)
    }

    /// A pattern among the parameters of an arrow in parentheses, whose body begins with this token.
    pub fn parameter(&self, token: Token<'_>) -> Option<(Unsupported, Loc)>
        ensures { result ≡ found.parameter (machine self.now) (plain_token token.entry) }
    {
        parameter(&self.place, &self.stack, token)
    }

    /// The name whose arguments are whole.
    pub fn callee(&self) -> Option<Loc>
        ensures { result ≡ sight.callee (machine self.now) }
    {
        callee(&self.place)
    }

    /// Whether the place is in no function but arrows.
    pub fn outside(&self) -> bool
        ensures { result ≡ unsupported.in_no_function (machine self.now) }
    {
        outside(&self.place, &self.stack)
    }

    /// How high the file is, once its end is taken.
    pub fn height(&self) -> Option<u64>
        ensures { result ≡ height_of (machine self.now) }
    {
        match &self.place {
            Place::Finished(statements) => Some(statements.height),
            _ => None,
        }
    }

    /// The statements of the file, once its end is taken.
    pub fn finish(self) -> Option<Statements>
        ensures { option_map statements_of result ≡ ended (machine self) }
    {
        let Reader {
            alloc: _,
            stack: _,
            place,
        } = self;
        match place {
            Place::Finished(statements) => Some(statements),
            other => {
                discard_place(other);
                None
            }
        }
    }
}
