// Which paths a pattern stands for.
use crate::spelled::text_of;
use cov_base::Memory;
use path_globs::matches;
use std::alloc::Global;

/// Whether a pattern stands for a path, with a space between them. None where there are no two.
pub(crate) fn matches_of(alloc: Global, pair: &str) -> Result<Option<String>, Memory> {
    let Some((pattern, path)) = pair.split_once(' ') else {
        return Ok(None);
    };
    let pattern = text_of(alloc, pattern)?;
    let path = text_of(alloc, path)?;
    let answer = if matches(pattern.as_str(), path.as_str()) {
        "true"
    } else {
        "false"
    };
    Ok(Some(String::from_str(alloc, answer)?))
}
