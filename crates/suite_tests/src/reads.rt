// What a store answers to a read. What was read is dropped here, so that a test need not carry it on.
use cov_base::{Failed, Store};

// Whether these bytes are read at a path: a file of no bytes is not an absent one.
pub(crate) fn holds<S: Store>(store: &mut S, path: &str, wanted: &[u8]) -> bool {
    match store.read(path) {
        Ok(Some(bytes)) => bytes.as_slice() == wanted,
        Ok(None) | Err(_) => false,
    }
}

// Whether no file is read at a path.
pub(crate) fn lacks<S: Store>(store: &mut S, path: &str) -> bool {
    matches!(&store.read(path), Ok(None))
}

// Whether a read at a path fails.
pub(crate) fn fails<S: Store>(store: &mut S, path: &str) -> bool {
    matches!(&store.read(path), Err(Failed::Device))
}

// How many bytes are read at a path, if any are.
pub(crate) fn length<S: Store>(store: &mut S, path: &str) -> Option<usize> {
    match store.read(path) {
        Ok(Some(bytes)) => Some(bytes.len()),
        Ok(None) | Err(_) => None,
    }
}
