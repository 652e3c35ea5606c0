/// A class of tokens whose spelling is kept.
#[derive(Clone, Copy, Debug)]
pub enum Class {
    /// A name that is bound, or a label (ECMA-262, 13.1).
    BoundName,
    /// A name after `.`, where a reserved word is one too (13.3).
    AnyName,
    /// The key of a property that is not computed (13.2.5).
    Key,
    /// The first part of a template with substitutions (13.2.8).
    FirstText,
    /// A part of a template after a substitution (13.2.8).
    LaterText,
}
