ghost use Rattle.std.specs.Prelude.{◌≡◌};
ghost use Rattle.js_tree.specs.Comments as spec;

use crate::pattern::{hint_in_text, ignores_in_text};
use js_tree::{Comment, File, Hint};

// The later of two hints.
pub(crate) fn or_earlier(last: Option<Hint>, earlier: Option<Hint>) -> Option<Hint>
    ensures { result ≡ spec.or_earlier last earlier }
{
    match last {
        None => earlier,
        Some(hint) => Some(hint),
    }
}

/// What the comments before a token take out: the last of them that is a hint says it. It takes no
/// memory.
pub fn hint_of(comments: &[Comment]) -> Option<Hint>
    ensures { result ≡ spec.hint_of comments.now }
{
    let mut last = None;
    for comment in comments {
        last = or_earlier(hint_in_text(comment.text.as_str()), last);
    }
    last
}

/// Whether one of a file's comments takes out the file. It takes no memory.
pub fn ignores_file(file: &File) -> bool
    ensures { result ≡ spec.ignores_file file.now.comments }
{
    ignores_among(file.comments.as_slice())
}

// Whether one of these comments takes out the file.
fn ignores_among(comments: &[Comment]) -> bool
    ensures { result ≡ spec.ignores_file comments.now }
{
    for comment in comments {
        if ignores_in_text(comment.text.as_str()) {
            return true;
        }
    }
    false
}
