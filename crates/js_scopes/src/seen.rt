ghost use Rattle.std.specs.Prelude.{◌≡◌, ℕ, List, IfOk, OnOk, if◌then◌else◌};
ghost use Rattle.std.specs.Str.{bytes_eq};
ghost use Rattle.js_scopes.specs.private.Seen.{nothing_seen, seen_clashes, seen_in, with_binding};

use crate::binding::Binding;
use crate::declarations::Declared;
use items::Memory;
use std::collections::BTreeMap;

/// How a scope has declared a name so far.
#[derive(Clone, Copy)]
pub(crate) struct Seen {
    /// As a parameter.
    parameter: bool,
    /// As the name of a `catch`.
    catch_name: bool,
    /// By `let`, `const` or as a function in a block.
    lexical: bool,
    /// By `var`, or as a function at the top.
    var: bool,
}

impl Seen {
    /// Not at all.
    fn nothing() -> Seen
        ensures { result ≡ nothing_seen }
    {
        Seen {
            parameter: false,
            catch_name: false,
            lexical: false,
            var: false,
        }
    }

    fn with(self, how: Binding) -> Seen
        ensures { result ≡ with_binding how self }
    {
        let mut seen = self;
        match how {
            Binding::Parameter => seen.parameter = true,
            Binding::CatchName => seen.catch_name = true,
            Binding::Lexical => seen.lexical = true,
            Binding::Var => seen.var = true,
        }
        seen
    }

    /// Whether a name that is declared like this may not stand beside it.
    pub(crate) fn clashes(self, how: Binding) -> bool
        ensures { result ≡ seen_clashes self how }
    {
        match how {
            Binding::Parameter => self.parameter,
            Binding::CatchName => false,
            Binding::Lexical => self.parameter || self.catch_name || self.lexical || self.var,
            Binding::Var => self.catch_name || self.lexical,
        }
    }
}

/// Notes that a name is declared, and gives what was seen of it before.
pub(crate) fn note<'t>(
    name: &Declared<'t>,
    table: &mut BTreeMap<&'t str, Seen>,
) -> Result<Seen, Memory>
    ensures before { IfOk result (λ seen. seen ≡ seen_in table.old name.now.name.now) }
    ensures noted { OnOk result ((q : List ℕ) → seen_in table.new q ≡ (if bytes_eq q name.now.name.now then with_binding name.now.how (seen_in table.old q) else seen_in table.old q)) }
{
    let seen = table.get(name.name).copied().unwrap_or(Seen::nothing());
    table.insert(name.name, seen.with(name.how))?;
    Ok(seen)
}
