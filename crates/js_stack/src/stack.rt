ghost use Rattle.std.specs.Prelude.{◌≡◌, ◌+◌, ◌∷◌, [], IfOk, IfSome, IfNone, OnOk};
ghost use Rattle.std.specs.Option.{option_map};
ghost use Rattle.js_reading.specs.Open.{up, lift};
ghost use Rattle.js_reading.specs.Turns as turns;
ghost use Rattle.js_reading.specs.Unsupported as unsupported;
ghost use Rattle.js_grammar.specs.View.{plain_slot, plain_wanted};
ghost use Rattle.js_build.specs.View.{plain_pieces};
ghost use Rattle.js_stack.specs.Stack as spec;
ghost use Rattle.js_stack.specs.View.{plain_frame, frames};

use crate::production::{Frame, Production, discard_frame};
use items::Memory;
use js_grammar::{Slot, Wanted};
use js_reading::{Choice, Form};
use std::alloc::{AllocError, Global};
use std::marker::Model;

/// What is kept of all frames together.
#[derive(Clone, Copy)]
pub(crate) struct Counts {
    /// How many levels they add above a missing part.
    pub(crate) depth: u64,
    /// The least height that they come to.
    pub(crate) least: u64,
    /// The place of an expression on top of them.
    pub(crate) place: Wanted,
    /// Whether the innermost open part is the expression of a template.
    pub(crate) in_template: bool,
    /// Whether they stand in a function that is no arrow: in its parameters or its body.
    pub(crate) in_function: bool,
}

/// A frame, and what is kept of those outside it.
#[derive(Drop)]
pub(crate) struct Held {
    frame: Frame,
    outside: Counts,
}

/// The frames that are open, and what is kept of them together. Contracts see it as the list of the frames, the innermost
/// first.
#[derive(Drop)]
pub(crate) struct Stack {
    held: Vec<Held>,
    counts: Counts,
}

impl Model for Stack {
    ghost use Rattle.std.specs.Prelude.{◌≡◌, List};
    ghost use Rattle.std.specs.Coded.{codes};
    ghost use Rattle.js_stack.specs.declared.production.Frame.{Frame};
    ghost use Rattle.js_stack.specs.contracts.production.Frame as contract;
    ghost use Rattle.js_build.specs.View.{plain_pieces};
    ghost use Rattle.js_stack.specs.Stack as spec;
    ghost use Rattle.js_stack.specs.View.{frames};

    ghost Value = { List Frame };

    ghost coded = { Prim.hlevel (codes, contract.the_row.coded) };

    ghost view = { λ stack. spec.stack_of stack.held.items };

    ghost invariant = { λ stack. spec.Counted stack.counts (frames (spec.stack_of stack.held.items)) × spec.is_counted stack.held.items };
}

impl Stack {
    /// No frame is open.
    #[tactic(auto, using(crate::proofs::OnStack::stack_rules))]
    pub(crate) fn new(alloc: Global) -> Stack
        ensures { result ≡ [] }
    {
        Stack {
            held: Vec::new(alloc),
            counts: Counts {
                depth: 0,
                least: 0,
                place: Wanted::Level(1),
                in_template: false,
                in_function: false,
            },
        }
    }

    /// Opens one more frame, inside the others.
    #[tactic(auto, using(crate::proofs::OnStack::stack_rules))]
    pub(crate) fn push(&mut self, inner: Frame) -> Result<(), Memory>
        ensures { OnOk result (self.new ≡ inner ∷ self.old) }
    {
        let counts = match over(self.counts, &inner) {
            Ok(counts) => counts,
            Err(memory) => {
                discard_frame(Some(inner));
                return Err(memory);
            }
        };
        self.held.push(Held {
            frame: inner,
            outside: self.counts,
        })?;
        self.counts = counts;
        Ok(())
    }

    /// Takes the innermost frame off.
    #[tactic(auto, using(crate::proofs::OnStack::stack_rules))]
    pub(crate) fn pop(&mut self) -> Option<Frame>
        ensures some { IfSome result (λ inner. self.old ≡ inner ∷ self.new) }
        ensures none { IfNone result (self.old ≡ []) }
        ensures emptied { IfNone result (self.new ≡ []) }
    {
        let Held { frame, outside } = self.held.pop()?;
        self.counts = outside;
        Some(frame)
    }

    /// The innermost frame, lent.
    #[tactic(auto, using(crate::proofs::OnStack::stack_rules, crate::proofs::OnStack::innermost_none))]
    pub(crate) fn innermost(&self) -> Option<&Frame>
        ensures { option_map (λ frame. frame.now) result ≡ spec.first_frame self.now }
    {
        match self.held.as_slice().split_last() {
            Some((held, _)) => Some(&held.frame),
            None => None,
        }
    }

    /// The place of an expression on top of them.
    pub(crate) fn place(&self) -> Wanted
        ensures { plain_wanted result ≡ turns.place (frames self.now) }
    {
        self.counts.place
    }

    /// Whether the innermost open part is the expression of a template.
    pub(crate) fn in_template(&self) -> bool
        ensures { result ≡ turns.template_due (frames self.now) }
    {
        self.counts.in_template
    }

    /// Whether they stand in a function that is no arrow: in its parameters or its body.
    pub(crate) fn in_function(&self) -> bool
        ensures { result ≡ unsupported.in_function (frames self.now) }
    {
        self.counts.in_function
    }

    /// The least height of a tree in which a part of this height stands in the innermost frame. No memory holds a tree
    /// of 2^64 levels.
    #[tactic(auto, using(crate::proofs::OnStack::up_is))]
    pub(crate) fn floor(&self, height: u64) -> Result<u64, Memory>
        ensures { IfOk result (λ least. least ≡ up (frames self.now) height) }
    {
        Ok(self.counts.least.max(sum(height, self.counts.depth)?))
    }
}

/// The sum of two heights. No memory holds a tree of 2^64 levels.
pub(crate) fn sum(one: u64, other: u64) -> Result<u64, Memory>
    ensures { IfOk result (λ both. both ≡ one + other) }
{
    one.checked_add(other).ok_or(AllocError)
}

/// What is kept with one frame more.
fn over(counts: Counts, frame: &Frame) -> Result<Counts, Memory>
    ensures { IfOk result (λ more. spec.Over counts (plain_frame frame.now) more) }
{
    Ok(Counts {
        depth: deeper(frame, counts.depth)?,
        least: higher(frame, counts.depth, counts.least)?,
        place: place_over(frame, counts.place),
        in_template: template_over(frame, counts.in_template),
        in_function: function_over(frame, counts.in_function),
    })
}

/// How many levels the frames add with this one.
fn deeper(frame: &Frame, depth: u64) -> Result<u64, Memory>
    ensures { IfOk result (λ more. more ≡ spec.deeper (plain_frame frame.now) depth) }
{
    match frame {
        Frame::InFile(_) => Ok(0),
        _ => sum(depth, 1),
    }
}

/// The least height that the frames come to with this one.
fn higher(frame: &Frame, depth: u64, least: u64) -> Result<u64, Memory>
    ensures { IfOk result (λ more. more ≡ spec.higher (plain_frame frame.now) depth least) }
{
    match frame {
        Frame::InFile(statements) => Ok(statements.height),
        _ => Ok(least.max(sum(lowest(frame)?, depth)?)),
    }
}

/// The least height that a frame's node will have.
fn lowest(frame: &Frame) -> Result<u64, Memory>
    ensures { IfOk result (λ height. height ≡ lift (plain_frame frame.now) 0) }
{
    match frame {
        Frame::InExpression(production, _) | Frame::InStatement(production) => {
            sum(production.parts.height(), 1)
        }
        Frame::InLine(_) => Ok(1),
        Frame::InStatements(production, statements) => {
            sum(production.parts.height().max(statements.height), 1)
        }
        Frame::InFile(_) => Ok(0),
        Frame::InItems(production, _, list) => {
            sum(production.parts.height().max(list.height), 1)
        }
    }
}

/// The place of an expression on top of the frames with this one.
#[tactic(auto, using(crate::proofs::OnStack::no_slot_is))]
fn place_over(frame: &Frame, outside: Wanted) -> Wanted
    ensures { plain_wanted result ≡ spec.place_over (plain_frame frame.now) (plain_wanted outside) }
{
    match frame {
        Frame::InExpression(production, wanted) => {
            let is_last = production.left.len() == 0;
            inner(*wanted, is_last, outside)
        }
        Frame::InItems(_, _, _) => Wanted::Level(2),
        _ => Wanted::Level(1),
    }
}

/// The place of a part: in a last part `in` is banned as in the place of the whole (ECMA-262, 14.7.4).
fn inner(wanted: Wanted, is_last: bool, outside: Wanted) -> Wanted
    ensures { plain_wanted result ≡ spec.inner_of (plain_wanted wanted) is_last (plain_wanted outside) }
{
    match wanted {
        Wanted::Level(least) => match outside {
            Wanted::WithoutIn(_) => {
                if is_last {
                    Wanted::WithoutIn(least)
                } else {
                    Wanted::Level(least)
                }
            }
            Wanted::Level(_) | Wanted::Callee => Wanted::Level(least),
        },
        Wanted::WithoutIn(least) => Wanted::WithoutIn(least),
        Wanted::Callee => Wanted::Callee,
    }
}

/// Whether the innermost open part is the expression of a template with this frame.
#[tactic(auto, using(crate::proofs::OnStack::template_none, crate::proofs::OnStack::template_some))]
fn template_over(frame: &Frame, outside: bool) -> bool
    ensures { result ≡ spec.template_over (plain_frame frame.now) outside }
{
    match frame {
        Frame::InExpression(production, _) => match production.left.first() {
            None => outside,
            Some(next) => {
                let is_last = production.left.len() == 1;
                template_next(next, is_last, outside)
            }
        },
        _ => false,
    }
}

/// The same of the slot after the expression that is missing.
fn template_next(next: Slot, is_last: bool, outside: bool) -> bool
    ensures { result ≡ spec.template_next (plain_slot next) is_last outside }
{
    match next {
        Slot::By(Choice::Arguments) => is_last && outside,
        Slot::By(Choice::TemplateRest) => true,
        _ => false,
    }
}

/// Whether a production is a function that is no arrow.
fn is_function(form: Form) -> bool
    ensures { result ≡ unsupported.is_function form }
{
    match form {
        Form::FunctionExpression | Form::FunctionDeclaration => true,
        _ => false,
    }
}

/// Whether the missing part of a production is a function's own.
pub(crate) fn owns(production: &Production) -> bool
    ensures { result ≡ unsupported.in_own (unsupported.is_function production.now.form) (plain_pieces production.now.parts) }
{
    production.parts.own(is_function(production.form))
}

/// Whether the frames stand in a function that is no arrow with this one.
fn function_over(frame: &Frame, outside: bool) -> bool
    ensures { result ≡ spec.function_over (plain_frame frame.now) outside }
{
    match frame {
        Frame::InExpression(production, _)
        | Frame::InStatement(production)
        | Frame::InStatements(production, _)
        | Frame::InItems(production, _, _) => owns(production) || outside,
        Frame::InLine(_) | Frame::InFile(_) => outside,
    }
}
