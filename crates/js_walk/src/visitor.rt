ghost use Rattle.std.specs.Prelude.{◌≡◌, ◌++◌, List, Option, IfOk};
ghost use Rattle.std.specs.Option.{option_map};
ghost use Rattle.js_walk.specs.Part as P;
ghost use Rattle.js_walk.specs.Plain.{plain_part};

use items::{Boxed, Memory};
use js_tree::{
    Case, Catch, ConciseBody, Declarator, Expr, ForInit, ForTarget, Function, FunctionBody, Param,
    Pattern, Property, PropertyKey, Stmt, TemplatePart,
};

/// A part of a file that is visited: a node of any kind, or a place in one.
#[derive(Clone, Copy)]
pub enum Part<'a> {
    /// A node of this kind.
    Expr(&'a Expr),
    /// A node of this kind.
    Stmt(&'a Stmt),
    /// A node of this kind.
    Property(&'a Property),
    /// A node of this kind.
    PropertyKey(&'a PropertyKey),
    /// A node of this kind.
    ConciseBody(&'a ConciseBody),
    /// A node of this kind.
    ForInit(&'a ForInit),
    /// A node of this kind.
    ForTarget(&'a ForTarget),
    /// A node of this kind.
    TemplatePart(&'a TemplatePart),
    /// A node of this kind.
    Function(&'a Function),
    /// A node of this kind.
    FunctionBody(&'a FunctionBody),
    /// A node of this kind.
    Param(&'a Param),
    /// A node of this kind.
    Declarator(&'a Declarator),
    /// A node of this kind.
    Case(&'a Case),
    /// A node of this kind.
    Catch(&'a Catch),
    /// A node of this kind.
    Pattern(&'a Pattern),
    /// The arm of an `if` where its condition holds; what stands there is visited next.
    Then(&'a Stmt),
    /// The arm of an `if` where its condition fails, written or not; what stands there is visited
    /// next.
    Else(&'a Option<Boxed<Stmt>>),
}

/// What is done on the way through a file.
pub trait Visitor {
    /// What a part tells the parts in it. It may borrow.
    type Inherited: Drop;

    /// What is found.
    ghost Found: { Type 0 };

    /// What a part tells the parts in it, as the definitions have it.
    ghost Told: { Type 0 };

    /// What is told where this is inherited.
    ghost told: { Self.Inherited → Told };

    /// What a part gives that is told this.
    ghost own: { Told → P.Part → List Found };

    /// What the parts in a part are told, where it is told this: none where they are passed over.
    ghost down: { Told → P.Part → Option Told };

    /// What is found so far.
    ghost found: { Self → List Found };

    /// Visits a part, and says what the parts in it inherit.
    fn visit(
        &mut self,
        inherited: &Self::Inherited,
        part: Part<'_>,
    ) -> Result<Option<Self::Inherited>, Memory>
        ensures own { IfOk result (λ _. found self.new ≡ found self.old ++ own (told inherited.now) (plain_part part.entry)) }
        ensures down { IfOk result (λ below. option_map told below ≡ down (told inherited.now) (plain_part part.entry)) };
}
