ghost use Rattle.std.specs.Prelude.{◌≡◌};
ghost use Rattle.js_lexer.specs.Token.{plain_token};
ghost use Rattle.js_reading.specs.Choices as spec;
ghost use Rattle.js_grammar.specs.View.{plain_branch};

use crate::slot::Branch;
use crate::{functions, heads, properties, statements};
use js_lexer::Token;
use js_reading::Choice;

/// What the next token chooses.
pub fn branch(choice: Choice, token: Token<'_>) -> Branch
    ensures { plain_branch result ≡ spec.branch choice (plain_token token.entry) }
{
    match choice {
        Choice::Semicolon => statements::semicolon(token),
        Choice::SemicolonOfDo => statements::semicolon_of_do(token),
        Choice::ValueOnLine => statements::value_on_line(token),
        Choice::LabelOnLine => statements::label_on_line(token),
        Choice::OnLine => statements::on_line(token),
        Choice::ValueBefore(mark) => heads::value_before(mark, token),
        Choice::Arguments => functions::arguments(token),
        Choice::Arrow => functions::arrow(token),
        Choice::ConciseBody => functions::concise_body(token),
        Choice::Else => statements::else_part(token),
        Choice::Initializer => statements::initializer(token),
        Choice::InitializerInHead => heads::initializer(token),
        Choice::Declarators => statements::declarators(token),
        Choice::DeclaratorsInHead => heads::declarators(token),
        Choice::FunctionName => functions::name(token),
        Choice::Parameters => functions::parameters(token),
        Choice::AfterParameter => functions::after_parameter(token),
        Choice::Properties => properties::properties(token),
        Choice::AfterKey => properties::after_key(token),
        Choice::AfterProperty => properties::after_property(token),
        Choice::TemplateRest => properties::template_rest(token),
        Choice::Clauses => statements::clauses(token),
        Choice::Handler => statements::handler(token),
        Choice::CatchName => statements::catch_name(token),
        Choice::Finally => statements::finally(token),
        Choice::Head => heads::head(token),
        Choice::AfterBound => heads::after_bound(token),
        Choice::AfterTarget => heads::after_target(token),
    }
}
