// How high the tree of a text is, and which texts are read to the same.
use crate::place::read;
use crate::spelled::{bytes_of, push_number};
use cov_base::Memory;
use js_height::height;
use js_host::PRELUDE;
use js_prelude::prelude;
use js_same::same;
use js_tree::File;
use std::alloc::Global;

/// The height of the tree that the text is read to, or where and why it is refused.
pub(crate) fn height_of(alloc: Global, bytes: Vec<u8>) -> Result<String, Memory> {
    match read(alloc, bytes)? {
        Ok(file) => {
            let mut page = String::new(alloc);
            push_number(alloc, height(&file), &mut page)?;
            Ok(page)
        }
        Err(refused) => Ok(refused),
    }
}

/// Whether two texts with ` <> ` between them are read to the same, each compared with the other. None
/// where there are no two.
pub(crate) fn same_of(alloc: Global, pair: &str) -> Result<Option<String>, Memory> {
    let Some((one, other)) = pair.split_once(" <> ") else {
        return Ok(None);
    };
    let one = read(alloc, bytes_of(alloc, one)?)?;
    let other = read(alloc, bytes_of(alloc, other)?)?;
    let answer = match (&one, &other) {
        (Ok(one), Ok(other)) => compared(one, other),
        _ => "not read",
    };
    Ok(Some(String::from_str(alloc, answer)?))
}

/// Whether the text is that of the host's prelude and is read to the tree that `prelude` makes, each compared with the
/// other.
pub(crate) fn prelude_of(alloc: Global, bytes: Vec<u8>) -> Result<String, Memory> {
    if bytes.as_slice() != PRELUDE.as_bytes() {
        return String::from_str(alloc, "another text");
    }
    match read(alloc, bytes)? {
        Ok(file) => {
            let made = prelude(alloc)?;
            String::from_str(alloc, compared(&file, made.file()))
        }
        Err(refused) => Ok(refused),
    }
}

fn compared(one: &File, other: &File) -> &'static str {
    match (same(one, other), same(other, one)) {
        (true, true) => "the same",
        (false, false) => "apart",
        _ => "the same one way alone",
    }
}
