ghost use Rattle.std.specs.Prelude.{◌≡◌, IfOk};
ghost use Rattle.js_tree.specs.Tree.{plain_declarator, plain_declarators, plain_stmts};
ghost use Rattle.cov_rewritten.specs.Rewritten.{counts};
ghost use Rattle.cov_rewrite.specs.Made as made;
ghost use Rattle.cov_rewrite.specs.Numbers.{counts_of};
ghost use Rattle.cov_rewrite.specs.Site.{counter_of, heed_of};

use crate::blocks::append;
use crate::counters::{Initial, with_counter};
use crate::expressions::expression;
use crate::numbering::Numbers;
use crate::site::Site;
use cov_hints::{place_as_written, place_of_declarator, place_of_expr};
use items::{Boxed, Items, Memory};
use js_tree::{ConstructKind, Declarator, Stmt};
use name_hold::needs_hold;

// Declarators, and the counters that stand before their declaration.
#[derive(Drop)]
pub(crate) struct Declared {
    pub(crate) counters: Items<Stmt>,
    pub(crate) declarators: Items<Declarator>,
}

// One of them.
#[derive(Drop)]
struct DeclaredOne {
    counters: Items<Stmt>,
    declarator: Declarator,
}

// Declarators, and the counters that stand before their declaration: `home` says whether those of
// the first may.
#[cycle(rewriting)]
#[tactic(auto, using(js_tree::proofs::Equations::tree_rules))]
pub(crate) fn declarators(
    site: Site<'_>,
    numbers: &mut Numbers,
    home: bool,
    list: Items<Declarator>,
) -> Result<Declared, Memory>
    ensures before { IfOk result (λ r. plain_stmts r.counters ≡ counts (counter_of site.entry) (made.hoisted home (heed_of site.entry) (plain_declarators list) (counts_of numbers.old))) }
    ensures tree { IfOk result (λ r. plain_declarators r.declarators ≡ made.made_declarators (counter_of site.entry) home (heed_of site.entry) (plain_declarators list) (counts_of numbers.old)) }
    ensures next { IfOk result (λ _. counts_of numbers.new ≡ made.next_declarators (heed_of site.entry) (plain_declarators list) (counts_of numbers.old)) }
{
    let mut counters = Items::new(site.alloc);
    let mut out = Items::new(site.alloc);
    let mut hoists = home;
    for each in list.into_vec() {
        let inner = site.within(place_of_declarator(&each));
        let made = declarator(inner, numbers, hoists, each)?;
        append(&mut counters, made.counters)?;
        out.push(made.declarator)?;
        hoists = false;
    }
    Ok(Declared {
        counters,
        declarators: out,
    })
}

// One of them: `hoists` says whether its counter may stand before the declaration.
#[cycle(rewriting)]
#[tactic(auto, using(js_tree::proofs::Equations::tree_rules))]
fn declarator(
    site: Site<'_>,
    numbers: &mut Numbers,
    hoists: bool,
    x: Declarator,
) -> Result<DeclaredOne, Memory>
    ensures before { IfOk result (λ r. plain_stmts r.counters ≡ counts (counter_of site.entry) (made.hoisted_of hoists (heed_of site.entry) (plain_declarator x) (counts_of numbers.old))) }
    ensures tree { IfOk result (λ r. plain_declarator r.declarator ≡ made.made_declarator (counter_of site.entry) hoists (heed_of site.entry) (plain_declarator x) (counts_of numbers.old)) }
    ensures next { IfOk result (λ _. counts_of numbers.new ≡ made.next_declarator (heed_of site.entry) (plain_declarator x) (counts_of numbers.old)) }
{
    let Declarator {
        loc,
        pattern,
        initializer,
    } = x;
    match initializer {
        None => Ok(DeclaredOne {
            counters: Items::new(site.alloc),
            declarator: Declarator {
                loc,
                pattern,
                initializer: None,
            },
        }),
        Some(value) => {
            let inner = site.within(place_as_written(value.get()));
            let place = place_of_expr(value.get());
            let number = numbers.take(inner.left, ConstructKind::Statement, place)?;
            let anonymous = needs_hold(value.get());
            let value = expression(inner, numbers, value.into_inner())?;
            let Initial { counters, value } = with_counter(
                site, hoists, number, anonymous, &pattern, value,
            )?;
            let value = Boxed::new(site.alloc, value)?;
            Ok(DeclaredOne {
                counters,
                declarator: Declarator {
                    loc,
                    pattern,
                    initializer: Some(value),
                },
            })
        }
    }
}
