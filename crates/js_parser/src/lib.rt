//! The reader of JavaScript: from a source text to its tree.
#![tactic(auto)]

mod ask;
mod comments;
mod found;
mod further;
mod offset;
mod reader;
mod recent;
mod refused;
mod search;

pub use js_reading::Unsupported;
pub use reader::parse;
pub use refused::{Refusal, Refused};
