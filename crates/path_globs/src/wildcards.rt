ghost use Rattle.std.specs.Prelude.{◌≡◌, ◌∷◌, [], MatchOption};
ghost use Rattle.std.specs.Str.{chars};
ghost use Rattle.path_globs.specs.Wildcards as spec;
ghost use Rattle.path_globs.specs.private.Search as search;

/// What the next piece of a pattern is, at what is left of a list.
pub(crate) enum Turn<T> {
    /// Nothing is left of both.
    Ends,
    /// A piece that stands for any run of items, before these pieces.
    Run(T),
    /// A piece that stands for the next item, before these pieces and items.
    One(T, T),
    /// The pieces don't stand for what is left.
    Fails,
}

/// What the pieces of a pattern up to the first run come to.
pub(crate) enum Front<T> {
    /// There is none, and they stand for all that is left.
    Ends,
    /// They stand for the items before these, and these pieces are after the run.
    Run(T, T),
    /// The pieces don't stand for what is left.
    Fails,
}

/// Whether a pattern stands for a path: a component `**` for any number of components, `*` for any
/// run of characters in a component, `?` for one of them, and all else for itself. It takes no
/// memory, and time in proportion to the length of the one times that of the other.
#[tactic(auto, using(crate::proofs::WildcardsLemmas::whole_rules))]
pub fn matches(pattern: &str, path: &str) -> bool
    ensures { result ≡ spec.matches pattern.now path.now }
{
    match components_before_run(Some(pattern), Some(path)) {
        Front::Ends => true,
        Front::Run(after, from) => some_components(after, from),
        Front::Fails => false,
    }
}

/// Whether components of a pattern stand for those of a path from some one on.
#[tactic(auto, using(crate::proofs::WildcardsLemmas::some_rules))]
fn some_components(pattern: Option<&str>, path: Option<&str>) -> bool
    ensures { result ≡ spec.from_some (spec.stand_for spec.is_two_stars spec.stands_for_component (search.components_left pattern.entry)) (search.components_left path.entry) }
{
    let mut after = pattern;
    let mut from = path;
    loop {
        match components_before_run(after, from) {
            Front::Ends => return true,
            Front::Run(next, left) => {
                after = next;
                from = left;
            }
            Front::Fails => match first_component(from) {
                None => return false,
                Some((_, left)) => from = left,
            },
        }
    }
}

/// What the components of a pattern up to `**` come to.
#[tactic(auto, using(crate::proofs::WildcardsLemmas::front_rules))]
fn components_before_run<'a>(
    pattern: Option<&'a str>,
    path: Option<&'a str>,
) -> Front<Option<&'a str>>
    ensures { search.Fronts spec.is_two_stars spec.stands_for_component search.components_left search.components_left (search.components_left pattern.entry) (search.components_left path.entry) result }
{
    let mut pieces = pattern;
    let mut rest = path;
    loop {
        match component_turn(pieces, rest) {
            Turn::Ends => return Front::Ends,
            Turn::Run(after) => return Front::Run(after, rest),
            Turn::One(after, left) => {
                pieces = after;
                rest = left;
            }
            Turn::Fails => return Front::Fails,
        }
    }
}

/// A turn at what is left of a pattern and of a path.
#[tactic(auto, using(crate::proofs::WildcardsLemmas::turn_rules))]
fn component_turn<'a>(pattern: Option<&'a str>, path: Option<&'a str>) -> Turn<Option<&'a str>>
    ensures { search.Turns spec.is_two_stars spec.stands_for_component search.components_left search.components_left (search.components_left pattern.entry) (search.components_left path.entry) result }
{
    match first_component(pattern) {
        None => match first_component(path) {
            None => Turn::Ends,
            Some(_) => Turn::Fails,
        },
        Some((piece, after)) => if piece == "**" {
            Turn::Run(after)
        } else {
            match first_component(path) {
                None => Turn::Fails,
                Some((part, left)) => if is_component(piece, part) {
                    Turn::One(after, left)
                } else {
                    Turn::Fails
                },
            }
        },
    }
}

/// The first component of what is left of a path, and what is left after it.
fn first_component<'a>(path: Option<&'a str>) -> Option<(&'a str, Option<&'a str>)>
    ensures { MatchOption result (search.components_left path.entry ≡ []) (λ first. search.components_left path.entry ≡ first.0.now ∷ search.components_left first.1) }
{
    let path = path?;
    match path.split_once('/') {
        None => Some((path, None)),
        Some((first, rest)) => Some((first, Some(rest))),
    }
}

/// Whether a component of a pattern stands for one of a path.
#[tactic(auto, using(crate::proofs::WildcardsLemmas::whole_rules))]
fn is_component(pattern: &str, component: &str) -> bool
    ensures { result ≡ spec.stands_for_component pattern.now component.now }
{
    match characters_before_run(pattern, component) {
        Front::Ends => true,
        Front::Run(after, from) => some_characters(after, from),
        Front::Fails => false,
    }
}

/// Whether a pattern stands for a text from some character of it on.
#[tactic(auto, using(crate::proofs::WildcardsLemmas::some_rules))]
fn some_characters(pattern: &str, text: &str) -> bool
    ensures { result ≡ spec.from_some (spec.stand_for spec.is_star spec.stands_for_character (chars pattern.now)) (chars text.now) }
{
    let mut after = pattern;
    let mut from = text;
    loop {
        match characters_before_run(after, from) {
            Front::Ends => return true,
            Front::Run(next, left) => {
                after = next;
                from = left;
            }
            Front::Fails => match first_character(from) {
                None => return false,
                Some((_, left)) => from = left,
            },
        }
    }
}

/// What the characters of a pattern up to `*` come to.
#[tactic(auto, using(crate::proofs::WildcardsLemmas::front_rules))]
fn characters_before_run<'a>(pattern: &'a str, text: &'a str) -> Front<&'a str>
    ensures { search.Fronts spec.is_star spec.stands_for_character search.characters search.characters (chars pattern.now) (chars text.now) result }
{
    let mut pieces = pattern;
    let mut rest = text;
    loop {
        match character_turn(pieces, rest) {
            Turn::Ends => return Front::Ends,
            Turn::Run(after) => return Front::Run(after, rest),
            Turn::One(after, left) => {
                pieces = after;
                rest = left;
            }
            Turn::Fails => return Front::Fails,
        }
    }
}

/// A turn at what is left of a pattern and of a text.
#[tactic(auto, using(crate::proofs::WildcardsLemmas::turn_rules))]
fn character_turn<'a>(pattern: &'a str, text: &'a str) -> Turn<&'a str>
    ensures { search.Turns spec.is_star spec.stands_for_character search.characters search.characters (chars pattern.now) (chars text.now) result }
{
    match first_character(pattern) {
        None => match first_character(text) {
            None => Turn::Ends,
            Some(_) => Turn::Fails,
        },
        Some((piece, after)) => if piece == '*' {
            Turn::Run(after)
        } else {
            match first_character(text) {
                None => Turn::Fails,
                Some((character, left)) => if stands_for(piece, character) {
                    Turn::One(after, left)
                } else {
                    Turn::Fails
                },
            }
        },
    }
}

/// Whether a character of a pattern that isn't `*` stands for one of a text.
fn stands_for(piece: char, character: char) -> bool
    ensures { result ≡ spec.stands_for_character piece character }
{
    piece == '?' || piece == character
}

/// The first character of a text, and what is after it.
fn first_character<'a>(text: &'a str) -> Option<(char, &'a str)>
    ensures { MatchOption result (chars text.now ≡ []) (λ first. chars text.now ≡ first.0 ∷ chars first.1.now) }
{
    let mut characters = text.chars();
    let first = characters.next()?;
    Some((first, characters.as_str()))
}
