ghost use Rattle.std.specs.Prelude.{◌≡◌};
ghost use Rattle.js_scopes.specs.Mentions.{start};

use js_tree::{Loc, Pos};

/// Where a node starts: line 1, column 0 where it has no place.
pub(crate) fn start_of(loc: &Option<Loc>) -> Pos
    ensures { result ≡ start loc.now }
{
    match loc {
        None => Pos { line: 1, column: 0 },
        Some(loc) => loc.start,
    }
}
