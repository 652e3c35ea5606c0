ghost use Rattle.std.specs.Prelude.{◌≡◌, suc, Some, IfOk};
ghost use Rattle.js_tree.specs.Linked as linked;
ghost use Rattle.cov_hints.specs.Left.{left_of};
ghost use Rattle.cov_rewrite.specs.Made as made;
ghost use Rattle.cov_rewrite.specs.Made.{number_of, after_number};
ghost use Rattle.cov_rewrite.specs.Numbers.{counts_of};

use cov_hints::Left;
use items::Memory;
use js_tree::{ConstructKind, Identifier, Loc};
use std::alloc::AllocError;

// The next number of each kind of construct of a file.
#[derive(Drop)]
pub(crate) struct Numbers {
    // Of a statement.
    pub(crate) statements: u64,
    // Of a function.
    pub(crate) functions: u64,
    // Of a branch.
    pub(crate) branches: u64,
}

impl Numbers {
    // The number of a construct that stands here, where this is left: none where it is taken out, or
    // stands nowhere.
    pub(crate) fn take(
        &mut self,
        left: Left<'_>,
        kind: ConstructKind,
        place: Option<Loc>,
    ) -> Result<Option<u64>, Memory>
        ensures number { IfOk result (λ number. number ≡ made.number kind (left_of left.entry) place (counts_of self.old)) }
        ensures next { IfOk result (λ _. counts_of self.new ≡ made.after kind (left_of left.entry) place (counts_of self.old)) }
    {
        self.take_at(kind, left.place(place))
    }

    // The same of one that stands here, if it stands anywhere.
    fn take_at(&mut self, kind: ConstructKind, place: Option<Loc>) -> Result<Option<u64>, Memory>
        ensures number { IfOk result (λ number. number ≡ number_of kind place (counts_of self.old)) }
        ensures next { IfOk result (λ _. counts_of self.new ≡ after_number kind place (counts_of self.old)) }
    {
        match place {
            None => Ok(None),
            Some(_) => Ok(Some(self.next(kind)?)),
        }
    }

    // The next number of a kind.
    fn next(&mut self, kind: ConstructKind) -> Result<u64, Memory>
        ensures number { IfOk result (λ number. number ≡ linked.next_of kind (counts_of self.old)) }
        ensures next { IfOk result (λ _. counts_of self.new ≡ linked.after_one kind (counts_of self.old)) }
    {
        match kind {
            ConstructKind::Statement => one_more(&mut self.statements),
            ConstructKind::Function => one_more(&mut self.functions),
            ConstructKind::Branch => one_more(&mut self.branches),
        }
    }
}

// A number, which is then greater by one. No file has 2^64 constructs: that would be want of memory.
fn one_more(next: &mut u64) -> Result<u64, Memory>
    ensures number { IfOk result (λ number. number ≡ next.old) }
    ensures next { IfOk result (λ _. next.new ≡ suc next.old) }
{
    let number = *next;
    match number.checked_add(1) {
        Some(more) => {
            *next = more;
            Ok(number)
        }
        None => Err(AllocError),
    }
}

// The number of a branch where a part is a path of it: none where the part is taken out.
pub(crate) fn in_branch(left: Left<'_>, branch: Option<u64>) -> Option<u64>
    ensures { result ≡ made.branch_in (left_of left.entry) branch }
{
    if left.ignored { None } else { branch }
}

// The path after that of a part: the same where the part is taken out. No branch has 2^64 paths: that
// would be want of memory.
pub(crate) fn past(left: Left<'_>, path: u64) -> Result<u64, Memory>
    ensures { IfOk result (λ next. next ≡ made.past (left_of left.entry) path) }
{
    if left.ignored {
        Ok(path)
    } else {
        path.checked_add(1).ok_or(AllocError)
    }
}

// Where a function is counted: it, its name where it has one, and its body stand somewhere.
pub(crate) fn function_place(
    loc: Option<Loc>,
    name: &Option<Identifier>,
    body: Option<Loc>,
) -> Option<Loc>
    ensures { result ≡ linked.function_place loc name.now body }
{
    match name {
        None => both(loc, body),
        Some(name) => both(both(loc, name.loc), body),
    }
}

// The same of one that is declared.
pub(crate) fn declared_place(loc: Option<Loc>, name: &Identifier, body: Option<Loc>) -> Option<Loc>
    ensures { result ≡ linked.function_place loc (Some name.now) body }
{
    both(both(loc, name.loc), body)
}

fn both(place: Option<Loc>, other: Option<Loc>) -> Option<Loc>
    ensures { result ≡ linked.both place other }
{
    match place {
        None => None,
        Some(_) => other,
    }
}
