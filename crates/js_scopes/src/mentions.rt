ghost use Rattle.std.specs.Prelude.{◌≡◌, ◌++◌, IfOk};
ghost use Rattle.js_scopes.specs.Mentions.{asked, asked_expr, asked_first, is_require, label, label_if, member, own_name, own_name_if, variable, own_mention, own_of_expr, own_of_stmt, nothing_told, mentions_file};
ghost use Rattle.js_scopes.specs.declared.mention.Mention.{Mention};
ghost use Rattle.js_tree.specs.Tree.{plain_file, plain_expr, plain_exprs, plain_stmt, plain_property, plain_property_key, plain_pattern};
ghost use Rattle.js_walk.specs.Part.{AProperty, APropertyKey, APattern};

use crate::mention::Mention;
use crate::place::start_of;
use items::{Items, Memory, Text};
use js_tree::{
    Expr, ExprNode, File, Identifier, Loc, Pattern, PatternNode, Property, PropertyKey,
    PropertyNode, Stmt, StmtNode,
};
use js_walk::{Part, Visitor, visit_file};
use std::alloc::Global;

// What a walk collects.
#[derive(Drop)]
struct Collector {
    alloc: Global,
    out: Items<Mention>,
}

/// The names that a file writes and the files that it asks for, a node's own before those in it.
pub fn mentions_of(alloc: Global, file: &File) -> Result<Items<Mention>, Memory>
    ensures { IfOk result (λ found. found ≡ mentions_file (plain_file file.now)) }
{
    let mut collector = Collector {
        alloc,
        out: Items::new(alloc),
    };
    visit_file(&mut collector, &(), file)?;
    Ok(collector.out)
}

impl Visitor for Collector {
    type Inherited = ();

    ghost Found = { Mention };

    ghost Told = { Unit {0} };

    ghost told = { λ _. tt };

    ghost own = { own_mention };

    ghost down = { nothing_told };

    ghost found = { λ collector. collector.out };

    fn visit(&mut self, _inherited: &(), part: Part<'_>) -> Result<Option<()>, Memory> {
        match part {
            Part::Expr(expr) => of_expr(self.alloc, expr, &mut self.out)?,
            Part::Stmt(stmt) => of_stmt(self.alloc, stmt, &mut self.out)?,
            Part::Property(property) => of_property(self.alloc, property, &mut self.out)?,
            Part::PropertyKey(key) => of_property_key(self.alloc, key, &mut self.out)?,
            Part::Pattern(pattern) => of_pattern(self.alloc, pattern, &mut self.out)?,
            _ => (),
        }
        Ok(Some(()))
    }
}

fn of_variable(
    alloc: Global,
    loc: &Option<Loc>,
    name: &Text,
    out: &mut Items<Mention>,
) -> Result<(), Memory>
    ensures { IfOk result (λ _. out.new ≡ out.old ++ variable loc.now name.now) }
{
    let name = Text::from_str(alloc, name.as_str())?;
    out.push(Mention::Variable(start_of(loc), name))
}

fn of_own_name(
    alloc: Global,
    identifier: &Identifier,
    out: &mut Items<Mention>,
) -> Result<(), Memory>
    ensures { IfOk result (λ _. out.new ≡ out.old ++ own_name identifier.now) }
{
    of_variable(alloc, &identifier.loc, &identifier.name, out)
}

#[tactic(auto, using(js_tree::proofs::Equations::tree_rules))]
fn of_own_name_if(
    alloc: Global,
    identifier: &Option<Identifier>,
    out: &mut Items<Mention>,
) -> Result<(), Memory>
    ensures { IfOk result (λ _. out.new ≡ out.old ++ own_name_if identifier.now) }
{
    match identifier {
        None => Ok(()),
        Some(identifier) => of_own_name(alloc, identifier, out),
    }
}

fn of_label(alloc: Global, identifier: &Identifier, out: &mut Items<Mention>) -> Result<(), Memory>
    ensures { IfOk result (λ _. out.new ≡ out.old ++ label identifier.now) }
{
    let name = Text::from_str(alloc, identifier.name.as_str())?;
    out.push(Mention::Label(start_of(&identifier.loc), name))
}

#[tactic(auto, using(js_tree::proofs::Equations::tree_rules))]
fn of_label_if(
    alloc: Global,
    identifier: &Option<Identifier>,
    out: &mut Items<Mention>,
) -> Result<(), Memory>
    ensures { IfOk result (λ _. out.new ≡ out.old ++ label_if identifier.now) }
{
    match identifier {
        None => Ok(()),
        Some(identifier) => of_label(alloc, identifier, out),
    }
}

fn of_member(alloc: Global, name: &Text, out: &mut Items<Mention>) -> Result<(), Memory>
    ensures { IfOk result (λ _. out.new ≡ out.old ++ member name.now) }
{
    let name = Text::from_str(alloc, name.as_str())?;
    out.push(Mention::Member(name))
}

/// Whether an expression is the name `require`.
#[tactic(auto, using(js_tree::proofs::Equations::tree_rules))]
fn is_the_require(expr: &Expr) -> bool
    ensures { result ≡ is_require (plain_expr expr.now) }
{
    match &expr.node {
        ExprNode::IdentifierReference(name) => name.as_str() == "require",
        ExprNode::This => false,
        ExprNode::NullLiteral => false,
        ExprNode::BooleanLiteral(_) => false,
        ExprNode::NumericLiteral(_) => false,
        ExprNode::StringLiteral(_) => false,
        ExprNode::ArrayLiteral(_) => false,
        ExprNode::ObjectLiteral(_) => false,
        ExprNode::FunctionExpression(_, _) => false,
        ExprNode::ArrowFunction(_, _) => false,
        ExprNode::RegularExpressionLiteral(_, _) => false,
        ExprNode::TemplateLiteral(_, _) => false,
        ExprNode::Parenthesized(_) => false,
        ExprNode::NamedMember(_, _) => false,
        ExprNode::ComputedMember(_, _) => false,
        ExprNode::New(_, _) => false,
        ExprNode::Call(_, _) => false,
        ExprNode::PostfixUpdate(_, _) => false,
        ExprNode::PrefixUpdate(_, _) => false,
        ExprNode::Unary(_, _) => false,
        ExprNode::Binary(_, _, _) => false,
        ExprNode::Logical(_, _, _) => false,
        ExprNode::Conditional(_, _, _) => false,
        ExprNode::Assignment(_, _, _) => false,
        ExprNode::Comma(_, _) => false,
    }
}

/// A copy of units.
fn copied(alloc: Global, units: &[u16]) -> Result<Items<u16>, Memory>
    ensures { IfOk result (λ copy. copy ≡ units.now) }
{
    Ok(Items::from_vec(Vec::from_slice(alloc, units)?))
}

#[tactic(auto, using(js_tree::proofs::Equations::tree_rules))]
fn of_asked_expr(alloc: Global, expr: &Expr, out: &mut Items<Mention>) -> Result<(), Memory>
    ensures { IfOk result (λ _. out.new ≡ out.old ++ asked_expr (plain_expr expr.now)) }
{
    match &expr.node {
        ExprNode::StringLiteral(string) => {
            let units = copied(alloc, string.units.as_slice())?;
            out.push(Mention::Required(units))
        }
        ExprNode::IdentifierReference(_) => Ok(()),
        ExprNode::This => Ok(()),
        ExprNode::NullLiteral => Ok(()),
        ExprNode::BooleanLiteral(_) => Ok(()),
        ExprNode::NumericLiteral(_) => Ok(()),
        ExprNode::ArrayLiteral(_) => Ok(()),
        ExprNode::ObjectLiteral(_) => Ok(()),
        ExprNode::FunctionExpression(_, _) => Ok(()),
        ExprNode::ArrowFunction(_, _) => Ok(()),
        ExprNode::RegularExpressionLiteral(_, _) => Ok(()),
        ExprNode::TemplateLiteral(_, _) => Ok(()),
        ExprNode::Parenthesized(_) => Ok(()),
        ExprNode::NamedMember(_, _) => Ok(()),
        ExprNode::ComputedMember(_, _) => Ok(()),
        ExprNode::New(_, _) => Ok(()),
        ExprNode::Call(_, _) => Ok(()),
        ExprNode::PostfixUpdate(_, _) => Ok(()),
        ExprNode::PrefixUpdate(_, _) => Ok(()),
        ExprNode::Unary(_, _) => Ok(()),
        ExprNode::Binary(_, _, _) => Ok(()),
        ExprNode::Logical(_, _, _) => Ok(()),
        ExprNode::Conditional(_, _, _) => Ok(()),
        ExprNode::Assignment(_, _, _) => Ok(()),
        ExprNode::Comma(_, _) => Ok(()),
    }
}

#[tactic(auto, using(js_tree::proofs::Equations::tree_rules))]
fn of_asked_first(alloc: Global, arguments: &[Expr], out: &mut Items<Mention>) -> Result<(), Memory>
    ensures { IfOk result (λ _. out.new ≡ out.old ++ asked_first (plain_exprs arguments.now)) }
{
    match arguments.first() {
        None => Ok(()),
        Some(argument) => of_asked_expr(alloc, argument, out),
    }
}

#[tactic(auto, using(js_tree::proofs::Equations::tree_rules))]
fn of_asked(
    alloc: Global,
    callee: &Expr,
    arguments: &[Expr],
    out: &mut Items<Mention>,
) -> Result<(), Memory>
    ensures { IfOk result (λ _. out.new ≡ out.old ++ asked (plain_expr callee.now) (plain_exprs arguments.now)) }
{
    if is_the_require(callee) {
        of_asked_first(alloc, arguments, out)
    } else {
        Ok(())
    }
}

#[tactic(auto, using(js_tree::proofs::Equations::tree_rules))]
fn of_expr(alloc: Global, expr: &Expr, out: &mut Items<Mention>) -> Result<(), Memory>
    ensures { IfOk result (λ _. out.new ≡ out.old ++ own_of_expr (plain_expr expr.now)) }
{
    match &expr.node {
        ExprNode::IdentifierReference(name) => of_variable(alloc, &expr.loc, name, out),
        ExprNode::FunctionExpression(name, _) => of_own_name_if(alloc, name, out),
        ExprNode::NamedMember(_, name) => of_member(alloc, name, out),
        ExprNode::Call(callee, arguments) => of_asked(
            alloc,
            callee.get(),
            arguments.as_slice(),
            out,
        ),
        ExprNode::This
        | ExprNode::NullLiteral
        | ExprNode::BooleanLiteral(_)
        | ExprNode::NumericLiteral(_)
        | ExprNode::StringLiteral(_)
        | ExprNode::ArrayLiteral(_)
        | ExprNode::ObjectLiteral(_)
        | ExprNode::ArrowFunction(_, _)
        | ExprNode::RegularExpressionLiteral(_, _)
        | ExprNode::TemplateLiteral(_, _)
        | ExprNode::Parenthesized(_)
        | ExprNode::ComputedMember(_, _)
        | ExprNode::New(_, _)
        | ExprNode::PostfixUpdate(_, _)
        | ExprNode::PrefixUpdate(_, _)
        | ExprNode::Unary(_, _)
        | ExprNode::Binary(_, _, _)
        | ExprNode::Logical(_, _, _)
        | ExprNode::Conditional(_, _, _)
        | ExprNode::Assignment(_, _, _)
        | ExprNode::Comma(_, _) => Ok(()),
    }
}

#[tactic(auto, using(js_tree::proofs::Equations::tree_rules))]
fn of_stmt(alloc: Global, stmt: &Stmt, out: &mut Items<Mention>) -> Result<(), Memory>
    ensures { IfOk result (λ _. out.new ≡ out.old ++ own_of_stmt (plain_stmt stmt.now)) }
{
    match &stmt.node {
        StmtNode::Continue(target) => of_label_if(alloc, target, out),
        StmtNode::Break(target) => of_label_if(alloc, target, out),
        StmtNode::Labelled(name, _) => of_label(alloc, name, out),
        StmtNode::FunctionDeclaration(name, _) => of_own_name(alloc, name, out),
        StmtNode::Directive(_)
        | StmtNode::Block(_)
        | StmtNode::VariableDeclaration(_, _)
        | StmtNode::Empty
        | StmtNode::Expression(_)
        | StmtNode::If(_, _, _)
        | StmtNode::DoWhile(_, _)
        | StmtNode::While(_, _)
        | StmtNode::For(_, _, _, _)
        | StmtNode::ForIn(_, _, _)
        | StmtNode::ForOf(_, _, _)
        | StmtNode::Return(_)
        | StmtNode::Switch(_, _)
        | StmtNode::Throw(_)
        | StmtNode::TryCatch(_, _)
        | StmtNode::TryFinally(_, _)
        | StmtNode::TryCatchFinally(_, _, _)
        | StmtNode::Debugger => Ok(()),
    }
}

#[tactic(auto, using(js_tree::proofs::Equations::tree_rules))]
fn of_property(alloc: Global, property: &Property, out: &mut Items<Mention>) -> Result<(), Memory>
    ensures { IfOk result (λ _. out.new ≡ out.old ++ own_mention tt (AProperty (plain_property property.now))) }
{
    match &property.node {
        PropertyNode::Shorthand(name) => of_variable(alloc, &property.loc, name, out),
        PropertyNode::KeyValue(_, _) => Ok(()),
        PropertyNode::Method(_, _) => Ok(()),
    }
}

#[tactic(auto, using(js_tree::proofs::Equations::tree_rules))]
fn of_property_key(alloc: Global, key: &PropertyKey, out: &mut Items<Mention>) -> Result<(), Memory>
    ensures { IfOk result (λ _. out.new ≡ out.old ++ own_mention tt (APropertyKey (plain_property_key key.now))) }
{
    match key {
        PropertyKey::NameKey(name) => of_member(alloc, name, out),
        PropertyKey::StringKey(_) => Ok(()),
        PropertyKey::NumberKey(_) => Ok(()),
        PropertyKey::ComputedKey(_) => Ok(()),
    }
}

#[tactic(auto, using(js_tree::proofs::Equations::tree_rules))]
fn of_pattern(alloc: Global, pattern: &Pattern, out: &mut Items<Mention>) -> Result<(), Memory>
    ensures { IfOk result (λ _. out.new ≡ out.old ++ own_mention tt (APattern (plain_pattern pattern.now))) }
{
    match &pattern.node {
        PatternNode::BindingIdentifier(name) => of_variable(alloc, &pattern.loc, name, out),
    }
}
