ghost use Rattle.std.specs.Prelude.{◌∷◌, ◌++◌, [], true, false, codes};
ghost use Rattle.js_tree.specs.Tree.{plain_expr, plain_stmt, plain_property, plain_property_key, plain_concise_body, plain_for_init, plain_for_target, plain_function, plain_function_body, plain_param, plain_declarator, plain_case, plain_catch, plain_expr_if, plain_stmt_if, plain_template_part, plain_template_parts, plain_properties, plain_params, plain_exprs, plain_stmts, plain_declarators, plain_cases};
ghost use Rattle.js_layout.specs.Neat as neat;
ghost use Rattle.js_layout.specs.Tokens as tokens;
ghost use Rattle.js_sheet.specs.Stands.{at, Puts};
ghost use Rattle.js_print.specs.Parts.{neat_param, neat_declarator, part_tokens, template_tokens, test_tokens};
ghost use Rattle.js_text.specs.Token as token;

use cov_base::Sink;
use items::Boxed;
use js_sheet::{
    Sheet, has_bare_in, is_looser, label, left_level, logical_right, own_place, pair_place,
    pattern, put_assignment_sign, put_binary_sign, put_continue, put_debugger, put_for_head,
    put_function, put_logical_sign, put_unary_sign, put_update_sign, put_variable_word,
    right_level, stands_in_pair, stands_in_pair_as_body, stands_in_pair_as_initializer,
    stands_in_pair_as_statement, truth,
};
use js_text::Punctuator;
use js_tree::{
    Case, Catch, ConciseBody, Declarator, Expr, ExprNode, ForInit, ForTarget, Function,
    FunctionBody, Identifier, Loc, Param, Property, PropertyKey, PropertyNode, Stmt, StmtNode,
    TemplatePart,
};

/// Prints an expression, its parts in parentheses where their places ask for them.
#[cycle(print)]
#[tactic(auto, using(crate::proofs::Printing::print_rules))]
fn expression<S: Sink>(to: &mut Sheet, sink: &mut S, expr: &Expr)
    ensures { Puts (at to.old (S.taken sink.old) (S.faults sink.old)) (at to.new (S.taken sink.new) (S.faults sink.new)) (tokens.expr_tokens (neat.neat_expr (plain_expr expr.now))) }
{
    let loc = expr.loc;
    match &expr.node {
        ExprNode::IdentifierReference(name) => {
            to.begin(loc);
            to.word(sink, loc, name.as_str());
        }
        ExprNode::This => {
            to.begin(loc);
            to.word(sink, loc, "this");
        }
        ExprNode::NullLiteral => {
            to.begin(loc);
            to.word(sink, loc, "null");
        }
        ExprNode::BooleanLiteral(value) => {
            to.begin(loc);
            to.word(sink, loc, truth(*value));
        }
        ExprNode::NumericLiteral(digits) => {
            to.begin(loc);
            to.number(sink, loc, digits.as_str());
        }
        ExprNode::StringLiteral(string) => {
            to.begin(loc);
            to.literal(sink, loc, string.spelling.as_str());
        }
        ExprNode::ArrayLiteral(items) => {
            to.begin(loc);
            to.mark(sink, loc, Punctuator::OpenBracket);
            expressions(to, sink, loc, items.as_slice());
            to.mark(sink, loc, Punctuator::CloseBracket);
        }
        ExprNode::ObjectLiteral(items) => {
            to.begin(loc);
            to.mark(sink, loc, Punctuator::OpenBrace);
            properties(to, sink, loc, items.as_slice());
            to.mark(sink, loc, Punctuator::CloseBrace);
        }
        ExprNode::FunctionExpression(name, called) => {
            to.begin(loc);
            function_expression(to, sink, loc, name, called.get());
        }
        ExprNode::ArrowFunction(parameters, body) => {
            to.begin(loc);
            to.mark(sink, loc, Punctuator::OpenParenthesis);
            params(to, sink, loc, parameters.as_slice());
            to.mark(sink, loc, Punctuator::CloseParenthesis);
            to.mark(sink, loc, Punctuator::Arrow);
            concise_body(to, sink, body.get());
        }
        ExprNode::RegularExpressionLiteral(body, flags) => {
            to.begin(loc);
            to.expression(sink, loc, body.as_str(), flags.as_str());
        }
        ExprNode::TemplateLiteral(text, parts) => {
            to.begin(loc);
            template(to, sink, loc, text.spelling.as_str(), parts.as_slice());
        }
        ExprNode::Parenthesized(inner) => expression(to, sink, inner.get()),
        ExprNode::NamedMember(object, name) => {
            to.begin(loc);
            placed(to, sink, 20, object.get());
            to.mark(sink, loc, Punctuator::Dot);
            to.word(sink, loc, name.as_str());
        }
        ExprNode::ComputedMember(object, key) => {
            to.begin(loc);
            placed(to, sink, 20, object.get());
            to.mark(sink, loc, Punctuator::OpenBracket);
            expression(to, sink, key.get());
            to.mark(sink, loc, Punctuator::CloseBracket);
        }
        ExprNode::New(constructor, arguments) => {
            to.begin(loc);
            to.word(sink, loc, "new");
            placed(to, sink, 21, constructor.get());
            to.mark(sink, loc, Punctuator::OpenParenthesis);
            expressions(to, sink, loc, arguments.as_slice());
            to.mark(sink, loc, Punctuator::CloseParenthesis);
        }
        ExprNode::Call(callee, arguments) => {
            to.begin(loc);
            placed(to, sink, 20, callee.get());
            to.mark(sink, loc, Punctuator::OpenParenthesis);
            expressions(to, sink, loc, arguments.as_slice());
            to.mark(sink, loc, Punctuator::CloseParenthesis);
        }
        ExprNode::PostfixUpdate(operator, operand) => {
            to.begin(loc);
            placed(to, sink, 20, operand.get());
            put_update_sign(to, sink, loc, *operator);
        }
        ExprNode::PrefixUpdate(operator, operand) => {
            to.begin(loc);
            put_update_sign(to, sink, loc, *operator);
            placed(to, sink, 16, operand.get());
        }
        ExprNode::Unary(operator, operand) => {
            to.begin(loc);
            put_unary_sign(to, sink, loc, *operator);
            placed(to, sink, 16, operand.get());
        }
        ExprNode::Binary(operator, left, right) => {
            to.begin(loc);
            placed(to, sink, left_level(*operator), left.get());
            put_binary_sign(to, sink, loc, *operator);
            placed(to, sink, right_level(*operator), right.get());
        }
        ExprNode::Logical(operator, left, right) => {
            to.begin(loc);
            let left = left.get();
            paired(to, sink, stands_in_pair(*operator, left), left);
            put_logical_sign(to, sink, loc, *operator);
            placed(to, sink, logical_right(*operator), right.get());
        }
        ExprNode::Conditional(test, then, otherwise) => {
            to.begin(loc);
            placed(to, sink, 4, test.get());
            to.mark(sink, loc, Punctuator::Question);
            placed(to, sink, 2, then.get());
            to.mark(sink, loc, Punctuator::Colon);
            placed(to, sink, 2, otherwise.get());
        }
        ExprNode::Assignment(operator, target, value) => {
            to.begin(loc);
            placed(to, sink, 20, target.get());
            put_assignment_sign(to, sink, loc, *operator);
            placed(to, sink, 2, value.get());
        }
        ExprNode::Comma(left, right) => {
            to.begin(loc);
            expression(to, sink, left.get());
            to.mark(sink, loc, Punctuator::Comma);
            placed(to, sink, 2, right.get());
        }
    }
}

/// Prints a function with its own name, if it has one.
#[cycle(print)]
#[tactic(auto, using(crate::proofs::Printing::print_rules))]
fn function_expression<S: Sink>(
    to: &mut Sheet,
    sink: &mut S,
    loc: Option<Loc>,
    name: &Option<Identifier>,
    called: &Function,
)
    ensures { Puts (at to.old (S.taken sink.old) (S.faults sink.old)) (at to.new (S.taken sink.new) (S.faults sink.new)) (tokens.word loc (codes "function") ∷ (tokens.label_tokens loc name.now ++ tokens.function_tokens loc (neat.neat_function (plain_function called.now)))) }
{
    put_function(to, sink, loc);
    label(to, sink, loc, name);
    function(to, sink, loc, called);
}

/// Prints a template.
#[cycle(print)]
#[tactic(auto, using(crate::proofs::Printing::print_rules))]
fn template<S: Sink>(
    to: &mut Sheet,
    sink: &mut S,
    loc: Option<Loc>,
    text: &str,
    parts: &[TemplatePart],
)
    ensures { Puts (at to.old (S.taken sink.old) (S.faults sink.old)) (at to.new (S.taken sink.new) (S.faults sink.new)) (template_tokens loc text.now (neat.neat_parts (plain_template_parts parts.now))) }
{
    to.literal(sink, loc, text);
    template_parts(to, sink, loc, parts);
}

/// Prints an expression in a pair of parentheses, its own where it has one.
#[cycle(print)]
#[tactic(auto, using(crate::proofs::Printing::print_rules))]
fn in_pair<S: Sink>(to: &mut Sheet, sink: &mut S, expr: &Expr)
    ensures { Puts (at to.old (S.taken sink.old) (S.faults sink.old)) (at to.new (S.taken sink.new) (S.faults sink.new)) (tokens.expr_tokens (neat.paired true (plain_expr expr.now) (neat.neat_expr (plain_expr expr.now)))) }
{
    let loc = pair_place(expr);
    to.begin(own_place(expr));
    to.mark(sink, loc, Punctuator::OpenParenthesis);
    expression(to, sink, expr);
    to.mark(sink, loc, Punctuator::CloseParenthesis);
}

/// Prints an expression in a pair of parentheses, or without.
#[cycle(print)]
#[tactic(auto, using(crate::proofs::Printing::print_rules))]
fn paired<S: Sink>(to: &mut Sheet, sink: &mut S, pair: bool, expr: &Expr)
    ensures { Puts (at to.old (S.taken sink.old) (S.faults sink.old)) (at to.new (S.taken sink.new) (S.faults sink.new)) (tokens.expr_tokens (neat.paired pair (plain_expr expr.now) (neat.neat_expr (plain_expr expr.now)))) }
{
    if pair {
        in_pair(to, sink, expr)
    } else {
        expression(to, sink, expr)
    }
}

/// Prints an expression, in parentheses where it is looser than its place asks.
#[cycle(print)]
#[tactic(auto, using(crate::proofs::Printing::print_rules))]
fn placed<S: Sink>(to: &mut Sheet, sink: &mut S, least: u8, expr: &Expr)
    ensures { Puts (at to.old (S.taken sink.old) (S.faults sink.old)) (at to.new (S.taken sink.new) (S.faults sink.new)) (tokens.expr_tokens (neat.placed least (plain_expr expr.now) (neat.neat_expr (plain_expr expr.now)))) }
{
    paired(to, sink, is_looser(expr, least), expr)
}

/// Prints items, with a comma between two.
#[cycle(print)]
#[tactic(auto, using(crate::proofs::Printing::print_rules))]
fn expressions<S: Sink>(to: &mut Sheet, sink: &mut S, loc: Option<Loc>, expressions: &[Expr])
    ensures { Puts (at to.old (S.taken sink.old) (S.faults sink.old)) (at to.new (S.taken sink.new) (S.faults sink.new)) (tokens.exprs_tokens loc (neat.neat_exprs (plain_exprs expressions.now))) }
{
    let Some((first, others)) = expressions.split_first() else {
        return;
    };
    placed(to, sink, 2, first);
    for item in others {
        to.mark(sink, loc, Punctuator::Comma);
        placed(to, sink, 2, item);
    }
}

/// Prints properties, with a comma between two.
#[cycle(print)]
#[tactic(auto, using(crate::proofs::Printing::print_rules))]
fn properties<S: Sink>(to: &mut Sheet, sink: &mut S, loc: Option<Loc>, properties: &[Property])
    ensures { Puts (at to.old (S.taken sink.old) (S.faults sink.old)) (at to.new (S.taken sink.new) (S.faults sink.new)) (tokens.properties_tokens loc (neat.neat_properties (plain_properties properties.now))) }
{
    let Some((first, others)) = properties.split_first() else {
        return;
    };
    property(to, sink, first);
    for item in others {
        to.mark(sink, loc, Punctuator::Comma);
        property(to, sink, item);
    }
}

/// Prints parameters, with a comma between two.
#[cycle(print)]
#[tactic(auto, using(crate::proofs::Printing::print_rules))]
fn params<S: Sink>(to: &mut Sheet, sink: &mut S, loc: Option<Loc>, params: &[Param])
    ensures { Puts (at to.old (S.taken sink.old) (S.faults sink.old)) (at to.new (S.taken sink.new) (S.faults sink.new)) (tokens.params_tokens loc (neat.neat_params (plain_params params.now))) }
{
    let Some((first, others)) = params.split_first() else {
        return;
    };
    param(to, sink, first);
    for item in others {
        to.mark(sink, loc, Punctuator::Comma);
        param(to, sink, item);
    }
}

/// Prints the parts of a template after its first text.
#[cycle(print)]
#[tactic(auto, using(crate::proofs::Printing::print_rules))]
fn template_parts<S: Sink>(to: &mut Sheet, sink: &mut S, loc: Option<Loc>, parts: &[TemplatePart])
    ensures { Puts (at to.old (S.taken sink.old) (S.faults sink.old)) (at to.new (S.taken sink.new) (S.faults sink.new)) (tokens.parts_tokens loc (neat.neat_parts (plain_template_parts parts.now))) }
{
    for part in parts {
        template_part(to, sink, loc, part);
    }
}

/// Prints a substitution and the text after it, which is the last of its template or isn't.
#[cycle(print)]
#[tactic(auto, using(crate::proofs::Printing::print_rules))]
fn template_part<S: Sink>(to: &mut Sheet, sink: &mut S, loc: Option<Loc>, part: &TemplatePart)
    ensures middle { Puts (at to.old (S.taken sink.old) (S.faults sink.old)) (at to.new (S.taken sink.new) (S.faults sink.new)) (part_tokens token.TemplateMiddle loc (plain_template_part part.now)) }
    ensures tail { Puts (at to.old (S.taken sink.old) (S.faults sink.old)) (at to.new (S.taken sink.new) (S.faults sink.new)) (part_tokens token.TemplateTail loc (plain_template_part part.now)) }
{
    expression(to, sink, &part.value);
    to.literal(sink, loc, part.text.spelling.as_str());
}

/// Prints a property.
#[cycle(print)]
#[tactic(auto, using(crate::proofs::Printing::print_rules))]
fn property<S: Sink>(to: &mut Sheet, sink: &mut S, property: &Property)
    ensures { Puts (at to.old (S.taken sink.old) (S.faults sink.old)) (at to.new (S.taken sink.new) (S.faults sink.new)) (tokens.property_tokens (neat.neat_property (plain_property property.now))) }
{
    let loc = property.loc;
    match &property.node {
        PropertyNode::Shorthand(name) => {
            to.begin(loc);
            to.word(sink, loc, name.as_str());
        }
        PropertyNode::KeyValue(key, value) => {
            property_key(to, sink, loc, key);
            to.mark(sink, loc, Punctuator::Colon);
            placed(to, sink, 2, value.get());
        }
        PropertyNode::Method(key, called) => {
            to.begin(loc);
            property_key(to, sink, loc, key);
            function(to, sink, loc, called.get());
        }
    }
}

/// Prints a property's key.
#[cycle(print)]
#[tactic(auto, using(crate::proofs::Printing::print_rules))]
fn property_key<S: Sink>(to: &mut Sheet, sink: &mut S, loc: Option<Loc>, key: &PropertyKey)
    ensures { Puts (at to.old (S.taken sink.old) (S.faults sink.old)) (at to.new (S.taken sink.new) (S.faults sink.new)) (tokens.key_tokens loc (neat.neat_key (plain_property_key key.now))) }
{
    match key {
        PropertyKey::NameKey(name) => to.word(sink, loc, name.as_str()),
        PropertyKey::StringKey(string) => to.literal(sink, loc, string.spelling.as_str()),
        PropertyKey::NumberKey(digits) => to.number(sink, loc, digits.as_str()),
        PropertyKey::ComputedKey(value) => {
            to.mark(sink, loc, Punctuator::OpenBracket);
            placed(to, sink, 2, value.get());
            to.mark(sink, loc, Punctuator::CloseBracket);
        }
    }
}

/// Prints the parameters and the body of a function.
#[cycle(print)]
#[tactic(auto, using(crate::proofs::Printing::print_rules))]
fn function<S: Sink>(to: &mut Sheet, sink: &mut S, loc: Option<Loc>, function: &Function)
    ensures { Puts (at to.old (S.taken sink.old) (S.faults sink.old)) (at to.new (S.taken sink.new) (S.faults sink.new)) (tokens.function_tokens loc (neat.neat_function (plain_function function.now))) }
{
    to.mark(sink, loc, Punctuator::OpenParenthesis);
    params(to, sink, loc, function.params.as_slice());
    to.mark(sink, loc, Punctuator::CloseParenthesis);
    function_body(to, sink, &function.body);
}

/// Prints a function's body.
#[cycle(print)]
#[tactic(auto, using(crate::proofs::Printing::print_rules))]
fn function_body<S: Sink>(to: &mut Sheet, sink: &mut S, body: &FunctionBody)
    ensures { Puts (at to.old (S.taken sink.old) (S.faults sink.old)) (at to.new (S.taken sink.new) (S.faults sink.new)) (tokens.body_tokens (neat.neat_body (plain_function_body body.now))) }
{
    block(to, sink, body.loc, body.statements.as_slice())
}

/// Prints the body of an arrow.
#[cycle(print)]
#[tactic(auto, using(crate::proofs::Printing::print_rules))]
fn concise_body<S: Sink>(to: &mut Sheet, sink: &mut S, body: &ConciseBody)
    ensures { Puts (at to.old (S.taken sink.old) (S.faults sink.old)) (at to.new (S.taken sink.new) (S.faults sink.new)) (tokens.concise_tokens (neat.neat_concise (plain_concise_body body.now))) }
{
    match body {
        ConciseBody::ExpressionBody(value) => paired(
            to,
            sink,
            stands_in_pair_as_body(value),
            value,
        ),
        ConciseBody::BlockBody(body) => function_body(to, sink, body),
    }
}

/// Prints a parameter, and its default.
#[cycle(print)]
#[tactic(auto, using(crate::proofs::Printing::print_rules))]
fn param<S: Sink>(to: &mut Sheet, sink: &mut S, param: &Param)
    ensures { Puts (at to.old (S.taken sink.old) (S.faults sink.old)) (at to.new (S.taken sink.new) (S.faults sink.new)) (tokens.param_tokens (neat_param (plain_param param.now))) }
{
    pattern(to, sink, param.loc, &param.pattern);
    initializer(to, sink, param.loc, false, &param.default);
}

/// Prints an initializer, where there is one, in the head of a `for` or elsewhere.
#[cycle(print)]
#[tactic(auto, using(crate::proofs::Printing::print_rules))]
fn initializer<S: Sink>(
    to: &mut Sheet,
    sink: &mut S,
    loc: Option<Loc>,
    head: bool,
    value: &Option<Boxed<Expr>>,
)
    ensures { Puts (at to.old (S.taken sink.old) (S.faults sink.old)) (at to.new (S.taken sink.new) (S.faults sink.new)) (tokens.initializer_tokens loc (neat.neat_initializer head (plain_expr_if value.now))) }
{
    match value {
        None => {}
        Some(value) => {
            to.mark(sink, loc, Punctuator::Assign);
            let value = value.get();
            paired(to, sink, stands_in_pair_as_initializer(head, value), value);
        }
    }
}

/// Prints declarators, with a comma between two, in the head of a `for` or elsewhere.
#[cycle(print)]
#[tactic(auto, using(crate::proofs::Printing::print_rules))]
fn declarators<S: Sink>(
    to: &mut Sheet,
    sink: &mut S,
    loc: Option<Loc>,
    head: bool,
    declarators: &[Declarator],
)
    ensures { Puts (at to.old (S.taken sink.old) (S.faults sink.old)) (at to.new (S.taken sink.new) (S.faults sink.new)) (tokens.declarators_tokens loc (neat.neat_declarators head (plain_declarators declarators.now))) }
{
    let Some((first, others)) = declarators.split_first() else {
        return;
    };
    declarator(to, sink, head, first);
    for item in others {
        to.mark(sink, loc, Punctuator::Comma);
        declarator(to, sink, head, item);
    }
}

/// Prints a declarator, and its initializer.
#[cycle(print)]
#[tactic(auto, using(crate::proofs::Printing::print_rules))]
fn declarator<S: Sink>(to: &mut Sheet, sink: &mut S, head: bool, declarator: &Declarator)
    ensures { Puts (at to.old (S.taken sink.old) (S.faults sink.old)) (at to.new (S.taken sink.new) (S.faults sink.new)) (tokens.declarator_tokens (neat_declarator head (plain_declarator declarator.now))) }
{
    to.begin(declarator.loc);
    pattern(to, sink, declarator.loc, &declarator.pattern);
    initializer(to, sink, declarator.loc, head, &declarator.initializer);
}

/// Prints an expression, where there is one.
#[cycle(print)]
#[tactic(auto, using(crate::proofs::Printing::print_rules))]
fn maybe<S: Sink>(to: &mut Sheet, sink: &mut S, value: &Option<Boxed<Expr>>)
    ensures { Puts (at to.old (S.taken sink.old) (S.faults sink.old)) (at to.new (S.taken sink.new) (S.faults sink.new)) (tokens.maybe_tokens (neat.neat_maybe (plain_expr_if value.now))) }
{
    match value {
        None => {}
        Some(value) => expression(to, sink, value.get()),
    }
}

/// Prints a statement.
#[cycle(print)]
#[tactic(auto, using(crate::proofs::Printing::print_rules))]
fn statement<S: Sink>(to: &mut Sheet, sink: &mut S, stmt: &Stmt)
    ensures { Puts (at to.old (S.taken sink.old) (S.faults sink.old)) (at to.new (S.taken sink.new) (S.faults sink.new)) (tokens.stmt_tokens (neat.neat_stmt (plain_stmt stmt.now))) }
{
    let loc = stmt.loc;
    to.begin(loc);
    match &stmt.node {
        StmtNode::Directive(string) => {
            to.literal(sink, loc, string.spelling.as_str());
            to.last_mark(sink, loc, Punctuator::Semicolon);
        }
        StmtNode::Block(statements) => block(to, sink, loc, statements.as_slice()),
        StmtNode::VariableDeclaration(kind, declared) => {
            put_variable_word(to, sink, loc, *kind);
            declarators(to, sink, loc, false, declared.as_slice());
            to.last_mark(sink, loc, Punctuator::Semicolon);
        }
        StmtNode::Empty => to.last_mark(sink, loc, Punctuator::Semicolon),
        StmtNode::Expression(expr) => {
            let expr = expr.get();
            paired(to, sink, stands_in_pair_as_statement(expr), expr);
            to.last_mark(sink, loc, Punctuator::Semicolon);
        }
        StmtNode::If(test, then, otherwise) => {
            to.word(sink, loc, "if");
            tested(to, sink, loc, test.get());
            statement(to, sink, then.get());
            else_part(to, sink, loc, otherwise);
        }
        StmtNode::DoWhile(body, test) => {
            to.word(sink, loc, "do");
            statement(to, sink, body.get());
            to.word(sink, loc, "while");
            tested(to, sink, loc, test.get());
            to.last_mark(sink, loc, Punctuator::Semicolon);
        }
        StmtNode::While(test, body) => {
            to.word(sink, loc, "while");
            tested(to, sink, loc, test.get());
            statement(to, sink, body.get());
        }
        StmtNode::For(init, test, update, body) => {
            put_for_head(to, sink, loc);
            for_init(to, sink, loc, init.get());
            to.mark(sink, loc, Punctuator::Semicolon);
            maybe(to, sink, test);
            to.mark(sink, loc, Punctuator::Semicolon);
            maybe(to, sink, update);
            to.mark(sink, loc, Punctuator::CloseParenthesis);
            statement(to, sink, body.get());
        }
        StmtNode::ForIn(target, object, body) => {
            put_for_head(to, sink, loc);
            for_target(to, sink, loc, target.get());
            to.word(sink, loc, "in");
            expression(to, sink, object.get());
            to.mark(sink, loc, Punctuator::CloseParenthesis);
            statement(to, sink, body.get());
        }
        StmtNode::ForOf(target, iterable, body) => {
            put_for_head(to, sink, loc);
            for_target(to, sink, loc, target.get());
            to.word(sink, loc, "of");
            placed(to, sink, 2, iterable.get());
            to.mark(sink, loc, Punctuator::CloseParenthesis);
            statement(to, sink, body.get());
        }
        StmtNode::Continue(target) => {
            put_continue(to, sink, loc);
            label(to, sink, loc, target);
            to.last_mark(sink, loc, Punctuator::Semicolon);
        }
        StmtNode::Break(target) => {
            to.word(sink, loc, "break");
            label(to, sink, loc, target);
            to.last_mark(sink, loc, Punctuator::Semicolon);
        }
        StmtNode::Return(value) => {
            to.word(sink, loc, "return");
            maybe(to, sink, value);
            to.last_mark(sink, loc, Punctuator::Semicolon);
        }
        StmtNode::Switch(value, clauses) => {
            to.word(sink, loc, "switch");
            tested(to, sink, loc, value.get());
            to.last_mark(sink, loc, Punctuator::OpenBrace);
            cases(to, sink, clauses.as_slice());
            to.last_mark(sink, loc, Punctuator::CloseBrace);
        }
        StmtNode::Labelled(name, body) => {
            to.word(sink, loc, name.name.as_str());
            to.mark(sink, loc, Punctuator::Colon);
            statement(to, sink, body.get());
        }
        StmtNode::Throw(value) => {
            to.word(sink, loc, "throw");
            expression(to, sink, value.get());
            to.last_mark(sink, loc, Punctuator::Semicolon);
        }
        StmtNode::TryCatch(tried, handler) => {
            to.word(sink, loc, "try");
            block(to, sink, loc, tried.as_slice());
            catch(to, sink, loc, handler.get());
        }
        StmtNode::TryFinally(tried, finally) => {
            to.word(sink, loc, "try");
            block(to, sink, loc, tried.as_slice());
            to.word(sink, loc, "finally");
            block(to, sink, loc, finally.as_slice());
        }
        StmtNode::TryCatchFinally(tried, handler, finally) => {
            to.word(sink, loc, "try");
            block(to, sink, loc, tried.as_slice());
            catch(to, sink, loc, handler.get());
            to.word(sink, loc, "finally");
            block(to, sink, loc, finally.as_slice());
        }
        StmtNode::Debugger => {
            put_debugger(to, sink, loc);
            to.last_mark(sink, loc, Punctuator::Semicolon);
        }
        StmtNode::FunctionDeclaration(name, called) => {
            put_function(to, sink, loc);
            to.word(sink, loc, name.name.as_str());
            function(to, sink, loc, called.get());
        }
    }
}

/// Prints statements.
#[cycle(print)]
#[tactic(auto, using(crate::proofs::Printing::print_rules))]
pub(crate) fn statements<S: Sink>(to: &mut Sheet, sink: &mut S, statements: &[Stmt])
    ensures { Puts (at to.old (S.taken sink.old) (S.faults sink.old)) (at to.new (S.taken sink.new) (S.faults sink.new)) (tokens.stmts_tokens (neat.neat_stmts (plain_stmts statements.now))) }
{
    for stmt in statements {
        statement(to, sink, stmt);
    }
}

/// Prints statements in braces.
#[cycle(print)]
#[tactic(auto, using(crate::proofs::Printing::print_rules))]
fn block<S: Sink>(to: &mut Sheet, sink: &mut S, loc: Option<Loc>, statements_in: &[Stmt])
    ensures { Puts (at to.old (S.taken sink.old) (S.faults sink.old)) (at to.new (S.taken sink.new) (S.faults sink.new)) (tokens.braced loc (tokens.stmts_tokens (neat.neat_stmts (plain_stmts statements_in.now)))) }
{
    to.last_mark(sink, loc, Punctuator::OpenBrace);
    statements(to, sink, statements_in);
    to.last_mark(sink, loc, Punctuator::CloseBrace);
}

/// Prints an expression in the parentheses of a statement.
#[cycle(print)]
#[tactic(auto, using(crate::proofs::Printing::print_rules))]
fn tested<S: Sink>(to: &mut Sheet, sink: &mut S, loc: Option<Loc>, test: &Expr)
    ensures { Puts (at to.old (S.taken sink.old) (S.faults sink.old)) (at to.new (S.taken sink.new) (S.faults sink.new)) (tokens.in_parentheses loc (tokens.expr_tokens (neat.neat_expr (plain_expr test.now)))) }
{
    to.mark(sink, loc, Punctuator::OpenParenthesis);
    expression(to, sink, test);
    to.mark(sink, loc, Punctuator::CloseParenthesis);
}

/// Prints `else` and its statement, where there is one.
#[cycle(print)]
#[tactic(auto, using(crate::proofs::Printing::print_rules))]
fn else_part<S: Sink>(
    to: &mut Sheet,
    sink: &mut S,
    loc: Option<Loc>,
    otherwise: &Option<Boxed<Stmt>>,
)
    ensures { Puts (at to.old (S.taken sink.old) (S.faults sink.old)) (at to.new (S.taken sink.new) (S.faults sink.new)) (tokens.else_tokens loc (neat.neat_else (plain_stmt_if otherwise.now))) }
{
    match otherwise {
        None => {}
        Some(stmt) => {
            to.word(sink, loc, "else");
            statement(to, sink, stmt.get());
        }
    }
}

/// Prints the first part of a `for`.
#[cycle(print)]
#[tactic(auto, using(crate::proofs::Printing::print_rules))]
fn for_init<S: Sink>(to: &mut Sheet, sink: &mut S, loc: Option<Loc>, init: &ForInit)
    ensures { Puts (at to.old (S.taken sink.old) (S.faults sink.old)) (at to.new (S.taken sink.new) (S.faults sink.new)) (tokens.init_tokens loc (neat.neat_init (plain_for_init init.now))) }
{
    match init {
        ForInit::NoInit => {}
        ForInit::InitDeclaration(kind, declared) => {
            put_variable_word(to, sink, loc, *kind);
            declarators(to, sink, loc, true, declared.as_slice());
        }
        ForInit::InitExpression(expr) => {
            let expr = expr.get();
            paired(to, sink, has_bare_in(expr), expr);
        }
    }
}

/// Prints what takes the keys or the items of a `for`.
#[cycle(print)]
#[tactic(auto, using(crate::proofs::Printing::print_rules))]
fn for_target<S: Sink>(to: &mut Sheet, sink: &mut S, loc: Option<Loc>, target: &ForTarget)
    ensures { Puts (at to.old (S.taken sink.old) (S.faults sink.old)) (at to.new (S.taken sink.new) (S.faults sink.new)) (tokens.target_tokens loc (neat.neat_target (plain_for_target target.now))) }
{
    match target {
        ForTarget::TargetDeclaration(kind, bound) => {
            put_variable_word(to, sink, loc, *kind);
            pattern(to, sink, loc, bound);
        }
        ForTarget::TargetExpression(expr) => expression(to, sink, expr.get()),
    }
}

/// Prints the clauses of a `switch`.
#[cycle(print)]
#[tactic(auto, using(crate::proofs::Printing::print_rules))]
fn cases<S: Sink>(to: &mut Sheet, sink: &mut S, cases: &[Case])
    ensures { Puts (at to.old (S.taken sink.old) (S.faults sink.old)) (at to.new (S.taken sink.new) (S.faults sink.new)) (tokens.cases_tokens (neat.neat_cases (plain_cases cases.now))) }
{
    for clause in cases {
        case(to, sink, clause);
    }
}

/// Prints a clause of a `switch`.
#[cycle(print)]
#[tactic(auto, using(crate::proofs::Printing::print_rules))]
fn case<S: Sink>(to: &mut Sheet, sink: &mut S, case: &Case)
    ensures { Puts (at to.old (S.taken sink.old) (S.faults sink.old)) (at to.new (S.taken sink.new) (S.faults sink.new)) (tokens.case_tokens (neat.neat_case (plain_case case.now))) }
{
    let loc = case.loc;
    case_test(to, sink, loc, &case.test);
    to.mark(sink, loc, Punctuator::Colon);
    statements(to, sink, case.statements.as_slice());
}

/// Prints what a clause begins with: `case` and its test, or `default`.
#[cycle(print)]
#[tactic(auto, using(crate::proofs::Printing::print_rules))]
fn case_test<S: Sink>(to: &mut Sheet, sink: &mut S, loc: Option<Loc>, test: &Option<Boxed<Expr>>)
    ensures { Puts (at to.old (S.taken sink.old) (S.faults sink.old)) (at to.new (S.taken sink.new) (S.faults sink.new)) (test_tokens loc (neat.neat_maybe (plain_expr_if test.now))) }
{
    match test {
        None => to.word(sink, loc, "default"),
        Some(test) => {
            to.word(sink, loc, "case");
            expression(to, sink, test.get());
        }
    }
}

/// Prints a `catch` clause.
#[cycle(print)]
#[tactic(auto, using(crate::proofs::Printing::print_rules))]
fn catch<S: Sink>(to: &mut Sheet, sink: &mut S, loc: Option<Loc>, catch: &Catch)
    ensures { Puts (at to.old (S.taken sink.old) (S.faults sink.old)) (at to.new (S.taken sink.new) (S.faults sink.new)) (tokens.catch_tokens loc (neat.neat_catch (plain_catch catch.now))) }
{
    to.word(sink, loc, "catch");
    match &catch.parameter {
        None => block(to, sink, loc, catch.statements.as_slice()),
        Some(bound) => {
            to.mark(sink, loc, Punctuator::OpenParenthesis);
            pattern(to, sink, loc, bound);
            to.mark(sink, loc, Punctuator::CloseParenthesis);
            block(to, sink, loc, catch.statements.as_slice());
        }
    }
}
