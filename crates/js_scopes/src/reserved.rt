ghost use Rattle.std.specs.Prelude.{◌≡◌};
ghost use Rattle.js_scopes.specs.Reserved as spec;

// The words stand by their lengths, so that each is sought among a few.

/// Whether a word that is no keyword may be no name: strict code reserves it, or the suite
/// refuses it, but `globalThis` not again in what it has written.
#[tactic(auto, using(crate::proofs::Lengths::length_rules), unfolding(crate::specs::Reserved::is_reserved))]
pub(crate) fn is_reserved(again: bool, word: &str) -> bool
    ensures { result ≡ spec.is_reserved again word.now }
{
    match word.len() {
        3 => word == "let" || word == "NaN",
        4 => word == "eval",
        5 => word == "yield",
        6 => word == "public" || word == "static",
        7 => word == "package" || word == "private",
        8 => word == "Infinity",
        9 => word == "interface" || word == "protected" || word == "arguments",
        10 => word == "implements" || (!again && word == "globalThis"),
        12 => word == "__coverage__",
        _ => false,
    }
}

/// Whether strict code reserves a word that is no keyword.
#[tactic(auto, using(crate::proofs::Lengths::length_rules), unfolding(crate::specs::Reserved::is_strict))]
pub(crate) fn is_strict(word: &str) -> bool
    ensures { result ≡ spec.is_strict word.now }
{
    match word.len() {
        3 => word == "let",
        5 => word == "yield",
        6 => word == "public" || word == "static",
        7 => word == "package" || word == "private",
        9 => word == "interface" || word == "protected",
        10 => word == "implements",
        _ => false,
    }
}
