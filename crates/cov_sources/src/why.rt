use js_parser::Refused;
use js_scopes::ScopeFault;
use js_text::TextFault;
use js_tree::Pos;

/// Why the bytes of a file are no source. Want of memory is none of these causes.
#[derive(Clone, Copy, Debug)]
pub enum Why {
    /// They are no text within the limits.
    NoText(TextFault),
    /// The text has no tree, or one that is too high.
    Unread {
        /// The refusal of the text.
        refused: Refused,
        /// The line and the column of its place.
        place: Pos,
    },
    /// The tree breaks an early rule.
    Broken(ScopeFault),
}
