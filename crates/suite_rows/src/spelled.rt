// Bytes and texts in percent encoding.
use cov_base::Memory;
use percent_encoding::{CONTROLS, percent_decode, percent_encode};
use std::alloc::Global;

/// The bytes that a field of a row stands for.
pub(crate) fn bytes_of(alloc: Global, field: &str) -> Result<Vec<u8>, Memory> {
    let mut bytes = Vec::new(alloc);
    percent_decode(field.as_bytes()).append_to(&mut bytes)?;
    Ok(bytes)
}

/// The text that a field of a row stands for.
pub(crate) fn text_of(alloc: Global, field: &str) -> Result<String, Memory> {
    let bytes = bytes_of(alloc, field)?;
    String::from_utf8_lossy(alloc, bytes.as_slice())
}

/// Writes a number in decimal: the one place where numbers are written, since each costs the prover much.
pub(crate) fn push_number(alloc: Global, number: u64, page: &mut String) -> Result<(), Memory> {
    page.push_str(format!(in alloc; "{number}")?.as_str())
}

/// Writes the lines of the bytes, each behind a mark, and tells where the last line isn't ended.
pub(crate) fn push_lines(page: &mut String, mark: &str, bytes: &[u8]) -> Result<(), Memory> {
    if bytes.is_empty() {
        return Ok(());
    }
    // beside all bytes that aren't ASCII
    let escaped = CONTROLS.add(b'%');
    let ended = bytes.strip_suffix(b"\n");
    for line in ended.unwrap_or(bytes).split(|byte| *byte == b'\n') {
        page.push_str(mark)?;
        page.push_str(" ")?;
        percent_encode(line, escaped).append_to(page)?;
        page.push_str("\n")?;
    }
    if ended.is_none() {
        page.push_str(mark)?;
        page.push_str("without its line feed\n")?;
    }
    Ok(())
}
