ghost use Rattle.std.specs.Prelude.{◌≡◌, ℕ, ◌≤◌, true, false, IfOk, IfErr, OnOk, Some, is_some};
ghost use Rattle.std.specs.Option.{option_map};
ghost use Rattle.js_tree.specs.Height.{height_file};
ghost use Rattle.js_tree.specs.Plain as plain;
ghost use Rattle.js_tree.specs.Tree.{plain_file};
ghost use Rattle.js_text.specs.Lex.{token_place, offset_of};
ghost use Rattle.js_text.specs.declared.goal.Goal.TheVariants.{Div};
ghost use Rattle.js_lexer.specs.Token.{plain_token};
ghost use Rattle.js_reading.specs.Makes as makes;
ghost use Rattle.js_reading.specs.Reads.{Reads, Reaches, asked_for};
ghost use Rattle.js_reading.specs.Turns as turns;
ghost use Rattle.js_stack.specs.Reader.{machine, ended, height_of};
ghost use Rattle.js_parser.specs.Refused.{RefusesText};
ghost use Rattle.js_parser.specs.Turn.{Stands, IsLow, Steps, Leaves, IsLeftOut, Tells};
ghost use Rattle.js_parser.specs.declared.refused.Refusal.TheVariants as why;

use crate::ask::ask;
use crate::comments::keep;
use crate::found::Find;
use crate::offset::offset_at;
use crate::recent::Recent;
use crate::search::{found_beyond, found_read, see};
use crate::{Refusal, Refused, Unsupported};
use items::{Items, Memory};
use js_build::with_directives;
use js_lexer::{Goal, Lexer, Token};
use js_stack::Reader;
use js_text::{Limits, Text};
use js_tree::{Comment, File, Loc};
use std::alloc::Global;

/// Takes a token, and says whether it goes on there; unless those before it begin more levels than the limit, or it ends a file
/// that is higher.
pub(crate) fn take(reader: &mut Reader, token: Token<'_>, limit: u64) -> Result<bool, Refusal>
    ensures taken { IfOk result (λ taken. Steps taken (machine reader.old) (machine reader.new) (plain_token token.entry) limit) }
    ensures refused { IfErr result (λ why. Leaves why (machine reader.old) (plain_token token.entry) limit) }
{
    if reader.floor()? > limit {
        return Err(Refusal::TooDeep);
    }
    match reader.take(token) {
        Ok(()) => {}
        Err(js_stack::Refusal::Syntax) => return Ok(false),
        Err(js_stack::Refusal::Memory) => return Err(Refusal::Memory),
    }
    match reader.height() {
        Some(height) if height > limit => Err(Refusal::TooDeep),
        _ => Ok(true),
    }
}

/// The refusal of a text for a form that is left out. In a text of 2^30 bytes or more a position may be that of several places:
/// there the answer is want of memory, at the token that told the form.
fn left_out(text: &str, at: usize, find: (Unsupported, Loc)) -> Refused
    requires told { IsLeftOut text.now find }
    requires there { Reaches text.now at }
    ensures { (limit : ℕ) → RefusesText result text.now limit }
{
    if text.len() >= 1 << 30 {
        return Refused {
            at,
            why: Refusal::Memory,
        };
    }
    Refused {
        at: offset_at(text, find.1.start),
        why: Refusal::Unsupported(find.0),
    }
}

/// The refusal of a text where a token is refused: for what is found with it or ahead of it, or else for grammar.
fn refused(text: &str, at: usize, found: Result<Find, Memory>) -> Refused
    requires told { Tells found text.now at }
    requires there { Reaches text.now at }
    ensures { (limit : ℕ) → RefusesText result text.now limit }
{
    match found {
        Ok(Some(find)) => left_out(text, at, find),
        Ok(None) => Refused {
            at,
            why: Refusal::Syntax,
        },
        Err(_) => Refused {
            at,
            why: Refusal::Memory,
        },
    }
}

/// Reads one token more, and keeps the comments before it and the turn.
fn turn<'a>(
    alloc: Global,
    text: &str,
    lexer: &mut Lexer<'a>,
    reader: &mut Reader,
    kept: &mut Items<Comment>,
    recent: &mut Recent<'a>,
    limit: u64,
) -> Result<Token<'a>, Refused>
    requires stands { Stands text.now lexer.old (machine reader.old) kept.old recent.old }
    requires going { is_some (height_of (machine reader.old)) ≡ false }
    ensures asked { IfOk result (λ token. asked_for (turns.goal_of_place (machine reader.old)) lexer.old ≡ Some (plain_token token, lexer.new)) }
    ensures turned { IfOk result (λ token. turns.turn (machine reader.old) (plain_token token) ≡ Some (machine reader.new)) }
    ensures stands { OnOk result (Stands text.now lexer.new (machine reader.new) kept.new recent.new) }
    ensures low { OnOk result (IsLow (machine reader.new) limit) }
    ensures refused { IfErr result (λ refused. RefusesText refused text.now limit) }
{
    let token = match ask(lexer, reader.goal()) {
        Ok(token) => token,
        Err(fault) => {
            return Err(Refused {
                at: fault.at,
                why: Refusal::Syntax,
            });
        }
    };
    let at = token.start;
    if keep(alloc, kept, text, &token).is_err() {
        return Err(Refused {
            at,
            why: Refusal::Memory,
        });
    }
    let seen = see(reader, token);
    let taken = match take(reader, token, limit) {
        Ok(taken) => taken,
        Err(why) => return Err(Refused { at, why }),
    };
    if !taken {
        let found = found_beyond(alloc, recent, seen, token, lexer, limit);
        return Err(refused(text, at, found));
    }
    match found_read(alloc, recent, seen, token) {
        Ok(None) => {}
        Ok(Some(find)) => return Err(left_out(text, at, find)),
        Err(_) => {
            return Err(Refused {
                at,
                why: Refusal::Memory,
            });
        }
    }
    if recent.push(seen.sight, token).is_err() {
        return Err(Refused {
            at,
            why: Refusal::Memory,
        });
    }
    Ok(token)
}

/// Where the next token starts, or what is none.
#[tactic(auto, using(crate::proofs::Stopping::start_is))]
fn next_place(lexer: &mut Lexer<'_>) -> usize
    ensures { result ≡ offset_of (token_place Div lexer.old) }
{
    match lexer.next(Goal::Div) {
        Ok(token) => token.start,
        Err(fault) => fault.at,
    }
}

/// The file that is read whole, with its directives (11.2.1).
fn file(
    alloc: Global,
    reader: Reader,
    comments: Items<Comment>,
    lexer: &mut Lexer<'_>,
) -> Result<File, Refused>
    requires { is_some (height_of (machine reader)) ≡ true }
    ensures file { IfOk result (λ file. option_map (λ ss. plain.MakeFile (makes.with_directives ss) comments) (ended (machine reader)) ≡ Some (plain_file file)) }
    ensures refused_at { IfErr result (λ refused. refused.at ≡ offset_of (token_place Div lexer.old)) }
    ensures refused { IfErr result (λ refused. refused.why ≡ why.Memory) }
{
    let Some(statements) = reader.finish() else {
        unreachable!();
    };
    match with_directives(alloc, statements) {
        Ok(body) => Ok(File {
            body: body.items,
            comments,
        }),
        Err(_) => Err(Refused {
            at: next_place(lexer),
            why: Refusal::Memory,
        }),
    }
}

/// The tree of a source text, or why it has none within the limit of height. It takes time in
/// proportion to the text, and no more of the machine's stack for a tree that is higher.
pub fn parse(alloc: Global, text: &Text, limits: Limits) -> Result<File, Refused>
    ensures tree { IfOk result (λ file. Reads text.now (plain_file file)) }
    ensures only { IfOk result (λ file. (tree : plain.File) → Reads text.now tree → tree ≡ plain_file file) }
    ensures within { IfOk result (λ file. height_file (plain_file file) ≤ limits.height) }
    ensures refused { IfErr result (λ refused. RefusesText refused text.now limits.height) }
{
    let source = text.as_str();
    let mut lexer = Lexer::new(text);
    let mut reader = Reader::new(alloc);
    let mut comments = Items::new(alloc);
    let mut recent = Recent::new(alloc);
    'tokens: loop {
        turn(
            alloc,
            source,
            &mut lexer,
            &mut reader,
            &mut comments,
            &mut recent,
            limits.height,
        )?;
        if reader.height().is_some() {
            break;
        }
    }
    file(alloc, reader, comments, &mut lexer)
}
