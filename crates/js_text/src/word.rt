ghost use Rattle.std.specs.Prelude.{◌≡◌, map};
ghost use Rattle.js_text.specs.Word as spec;

/// The words that may never be names: ReservedWord (ECMA-262, 12.7.2) but for `await` and `yield`,
/// which are names in scripts.
#[derive(Clone, Copy, Debug, PartialEq, Eq)]
pub enum ReservedWord {
    /// `break`
    Break,
    /// `case`
    Case,
    /// `catch`
    Catch,
    /// `class`
    Class,
    /// `const`
    Const,
    /// `continue`
    Continue,
    /// `debugger`
    Debugger,
    /// `default`
    Default,
    /// `delete`
    Delete,
    /// `do`
    Do,
    /// `else`
    Else,
    /// `enum`
    Enum,
    /// `export`
    Export,
    /// `extends`
    Extends,
    /// `false`
    False,
    /// `finally`
    Finally,
    /// `for`
    For,
    /// `function`
    Function,
    /// `if`
    If,
    /// `import`
    Import,
    /// `in`
    In,
    /// `instanceof`
    InstanceOf,
    /// `new`
    New,
    /// `null`
    Null,
    /// `return`
    Return,
    /// `super`
    Super,
    /// `switch`
    Switch,
    /// `this`
    This,
    /// `throw`
    Throw,
    /// `true`
    True,
    /// `try`
    Try,
    /// `typeof`
    TypeOf,
    /// `var`
    Var,
    /// `void`
    Void,
    /// `while`
    While,
    /// `with`
    With,
}

/// How each of them is written, in the order of their letters.
pub const RESERVED_WORDS: [(&str, ReservedWord); 36] = [
    ("break", ReservedWord::Break),
    ("case", ReservedWord::Case),
    ("catch", ReservedWord::Catch),
    ("class", ReservedWord::Class),
    ("const", ReservedWord::Const),
    ("continue", ReservedWord::Continue),
    ("debugger", ReservedWord::Debugger),
    ("default", ReservedWord::Default),
    ("delete", ReservedWord::Delete),
    ("do", ReservedWord::Do),
    ("else", ReservedWord::Else),
    ("enum", ReservedWord::Enum),
    ("export", ReservedWord::Export),
    ("extends", ReservedWord::Extends),
    ("false", ReservedWord::False),
    ("finally", ReservedWord::Finally),
    ("for", ReservedWord::For),
    ("function", ReservedWord::Function),
    ("if", ReservedWord::If),
    ("import", ReservedWord::Import),
    ("in", ReservedWord::In),
    ("instanceof", ReservedWord::InstanceOf),
    ("new", ReservedWord::New),
    ("null", ReservedWord::Null),
    ("return", ReservedWord::Return),
    ("super", ReservedWord::Super),
    ("switch", ReservedWord::Switch),
    ("this", ReservedWord::This),
    ("throw", ReservedWord::Throw),
    ("true", ReservedWord::True),
    ("try", ReservedWord::Try),
    ("typeof", ReservedWord::TypeOf),
    ("var", ReservedWord::Var),
    ("void", ReservedWord::Void),
    ("while", ReservedWord::While),
    ("with", ReservedWord::With),
];

/// The first entry of a table for a word.
fn lookup(mut table: &[(&str, ReservedWord)], word: &str) -> Option<ReservedWord>
    ensures { result ≡ spec.lookup (map (λ entry. (entry.0.now, entry.1)) table.entry.now) word.now }
{
    while let [entry, rest @ ..] = table {
        if word == entry.0 {
            return Some(entry.1);
        }
        table = rest;
    }
    None
}

/// Which reserved word a word is, if it is one. It takes no memory.
#[tactic(auto, unfolding(crate::specs::Word::reserved_word))]
pub fn reserved_word(word: &str) -> Option<ReservedWord>
    ensures { result ≡ spec.reserved_word word.now }
{
    lookup(&RESERVED_WORDS, word)
}
