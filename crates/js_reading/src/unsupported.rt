/// A form of the standard that the language leaves out.
#[derive(Clone, Copy, Debug, PartialEq, Eq)]
pub enum Unsupported {
    /// `class` (ECMA-262, 15.7).
    ClassForm,
    /// `super` (13.3.7).
    Super,
    /// `import` (13.3.10, 16.2.2).
    Import,
    /// `export` (16.2.3).
    Export,
    /// `new.target` (13.3.12).
    NewTarget,
    /// `...`, which begins a rest parameter too (13.2.4, 15.1).
    Spread,
    /// `?.` (13.3.9).
    OptionalChain,
    /// `&&=`, `||=`, `??=` (13.15).
    LogicalAssignment,
    /// An `async` function, arrow or method (15.8, 15.9).
    Async,
    /// A generator (15.5).
    Generator,
    /// A getter or a setter (15.4).
    Accessor,
    /// A numeral with `n` (12.9.3).
    BigIntLiteral,
    /// `this` outside every function but arrows (13.2.1).
    ThisOutside,
    /// A comma where an item of an array is due (13.2.4).
    Elision,
    /// The key `__proto__` before `:` (B.3.1).
    Proto,
    /// A template after a member, a call or a primary expression (13.3.11).
    TaggedTemplate,
    /// A target in parentheses (13.15.1).
    ParenthesizedTarget,
    /// A pattern that binds or assigns (14.3.3, 13.15.5).
    BindingPattern,
}
