// The tree that bytes are read to, or where and why they are refused.
use crate::spelled::push_number;
use cov_base::Memory;
use js_parser::{Refusal, Refused, parse};
use js_text::{Limits, Text};
use js_tree::File;
use std::alloc::Global;

/// The tree, or the byte where the text is refused and the cause.
pub(crate) fn read(alloc: Global, bytes: Vec<u8>) -> Result<Result<File, String>, Memory> {
    let Ok(text) = Text::from_bytes(alloc, bytes, Limits::source()) else {
        return Ok(Err(String::from_str(alloc, "no text")?));
    };
    match parse(alloc, &text, Limits::source()) {
        Ok(file) => Ok(Ok(file)),
        Err(Refused { at, why }) => {
            let mut page = String::from_str(alloc, why_of(why))?;
            page.push_str(" at byte ")?;
            push_number(alloc, at as u64, &mut page)?;
            Ok(Err(page))
        }
    }
}

fn why_of(why: Refusal) -> &'static str {
    match why {
        Refusal::Syntax => "syntax",
        Refusal::Unsupported(_) => "unsupported",
        Refusal::TooDeep => "too deep",
        Refusal::Memory => "memory",
    }
}
