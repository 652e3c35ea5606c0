// The names that a text writes, what it asks for, and the names that it may not have.
use crate::place::read;
use crate::spelled::push_number;
use cov_base::Memory;
use items::Text;
use js_scopes::{Checked, ScopeFault, ScopeFaultKind, check};
use std::alloc::Global;

/// The names of a text and what it asks for, or the place of the first early rule that it breaks, and which.
pub(crate) fn names_of(alloc: Global, bytes: Vec<u8>) -> Result<String, Memory> {
    let file = match read(alloc, bytes)? {
        Ok(file) => file,
        Err(refused) => return Ok(refused),
    };
    match check(alloc, file) {
        Ok(checked) => both(alloc, &checked),
        Err((_, ScopeFault { at, kind })) => {
            let mut page = String::from_str(alloc, rule_of(kind))?;
            page.push_str(" at ")?;
            push_number(alloc, at.line as u64, &mut page)?;
            page.push_str(":")?;
            push_number(alloc, at.column as u64, &mut page)?;
            Ok(page)
        }
    }
}

fn rule_of(kind: ScopeFaultKind) -> &'static str {
    match kind {
        ScopeFaultKind::Duplicate => "duplicate",
        ScopeFaultKind::Label => "label",
        ScopeFaultKind::BreakOutside => "break outside",
        ScopeFaultKind::ContinueOutside => "continue outside",
        ScopeFaultKind::BadTarget => "bad target",
        ScopeFaultKind::Reserved => "reserved",
        ScopeFaultKind::Memory => "memory",
    }
}

fn both(alloc: Global, checked: &Checked) -> Result<String, Memory> {
    let mut line = String::new(alloc);
    push_all(checked.names(), &mut line)?;
    line.push_str("|")?;
    for text in checked.requires_() {
        line.push_str(" ")?;
        line.push_str(text.as_str())?;
    }
    Ok(line)
}

fn push_all(texts: &[Text], line: &mut String) -> Result<(), Memory> {
    for text in texts {
        line.push_str(text.as_str())?;
        line.push_str(" ")?;
    }
    Ok(())
}
