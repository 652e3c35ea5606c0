//! The tokens of a source text, one after another.
#![tactic(auto)]

mod character;
mod comment;
mod comment_list;
mod escape;
mod gap;
mod kind;
mod laws;
mod lexer;
mod literal;
mod longest;
mod number;
mod regexp;
mod scan;
mod token;
mod units;
mod word;

pub use comment_list::comments;
pub use js_text::{Goal, Punctuator};
pub use laws::{comments_of_tokens, one_token};
pub use lexer::{LexFault, Lexer};
pub use token::{Span, Token, TokenKind};
pub use units::{name_of, template_units, units_of};
