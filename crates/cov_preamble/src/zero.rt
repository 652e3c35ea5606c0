ghost use Rattle.std.specs.Prelude.{◌≡◌, decimal, map, string_bytes, IfOk, OnOk};
ghost use Rattle.serde_json.specs.Data.{Data};
ghost use Rattle.js_tree.specs.Tree.{plain_expr, plain_properties};
ghost use Rattle.cov_object.specs.Json as json;
ghost use Rattle.cov_object.specs.private.Order.{in_key_order};
ghost use Rattle.cov_preamble.specs.Pieces as pieces;
ghost use Rattle.cov_rewritten.specs.Preamble as spec;

use crate::objects::{numeral, object, put, string};
use crate::things::{branch, function, location, path_counts};
use crate::values::source_map;
use cov_object::{BranchCoverage, FileCoverage, FunctionCoverage, StatementCoverage};
use items::{Items, Memory};
use js_tree::{Expr, Property};
use std::alloc::Global;
use std::collections::BTreeMap;

// What the coverage of a file has of a thing: how often it ran, and what it is and where it stands.
trait Told {
    // As data.
    ghost counts: { Self → Data };

    ghost description: { Self → Data };

    // As expressions.
    fn counts(&self, alloc: Global) -> Result<Expr, Memory>
        ensures { IfOk result (λ e. plain_expr e ≡ spec.literal (counts self.now)) };

    fn description(&self, alloc: Global) -> Result<Expr, Memory>
        ensures { IfOk result (λ e. plain_expr e ≡ spec.literal (description self.now)) };
}

impl Told for StatementCoverage {
    ghost counts = { λ statement. json.count_data statement.count };

    ghost description = { λ statement. json.location_data statement.location };

    fn counts(&self, alloc: Global) -> Result<Expr, Memory> {
        numeral(alloc, self.count.get())
    }

    fn description(&self, alloc: Global) -> Result<Expr, Memory> {
        location(alloc, self.location)
    }
}

impl Told for FunctionCoverage {
    ghost counts = { λ function. json.count_data function.count };

    ghost description = { λ function. json.function_data function };

    fn counts(&self, alloc: Global) -> Result<Expr, Memory> {
        numeral(alloc, self.count.get())
    }

    fn description(&self, alloc: Global) -> Result<Expr, Memory> {
        function(alloc, self)
    }
}

impl Told for BranchCoverage {
    ghost counts = { λ branch. json.path_counts_data branch };

    ghost description = { λ branch. json.branch_data branch };

    fn counts(&self, alloc: Global) -> Result<Expr, Memory> {
        path_counts(alloc, self)
    }

    fn description(&self, alloc: Global) -> Result<Expr, Memory> {
        branch(alloc, self)
    }
}

// A number in decimal.
fn digits(alloc: Global, number: u64) -> Result<String, Memory>
    ensures { IfOk result (λ digits. string_bytes digits ≡ decimal number) }
{
    Ok(format!(in alloc; "{number}")?)
}

// The things, each beside its id in decimal, in the byte order of the digits.
fn in_digit_order<T>(alloc: Global, things: &[(u64, T)]) -> Result<Vec<(String, &T)>, Memory>
    ensures { IfOk result (λ sorted. map (λ thing. (string_bytes thing.0, thing.1.now)) sorted.items ≡ in_key_order things.now) }
{
    let mut sorted = BTreeMap::new(alloc);
    for (id, thing) in things {
        sorted.insert(digits(alloc, *id)?, thing)?;
    }
    sorted.into_iter().collect(alloc)
}

// How often each thing ran, under its id.
fn all_counts<T: Told>(alloc: Global, things: &[(u64, T)]) -> Result<Expr, Memory>
    ensures { IfOk result (λ e. plain_expr e ≡ spec.literal (json.numbered T.counts things.now)) }
{
    let mut members = Items::new(alloc);
    for (id, thing) in in_digit_order(alloc, things)? {
        let value = thing.counts(alloc)?;
        put(alloc, &mut members, id.as_str(), value)?;
    }
    Ok(object(members))
}

// What each thing is and where it stands, under its id.
fn all_descriptions<T: Told>(alloc: Global, things: &[(u64, T)]) -> Result<Expr, Memory>
    ensures { IfOk result (λ e. plain_expr e ≡ spec.literal (json.numbered T.description things.now)) }
{
    let mut members = Items::new(alloc);
    for (id, thing) in in_digit_order(alloc, things)? {
        let value = thing.description(alloc)?;
        put(alloc, &mut members, id.as_str(), value)?;
    }
    Ok(object(members))
}

// Puts two members at the end: how often the things ran, and what each is.
fn put_things<T: Told>(
    alloc: Global,
    members: &mut Items<Property>,
    counts: &str,
    descriptions: &str,
    things: &[(u64, T)],
) -> Result<(), Memory>
    ensures { OnOk result (plain_properties members.new ≡ pieces.with_things T.counts T.description counts.now descriptions.now things.now (plain_properties members.old)) }
{
    let value = all_counts(alloc, things)?;
    put(alloc, members, counts, value)?;
    let value = all_descriptions(alloc, things)?;
    put(alloc, members, descriptions, value)
}

// Puts a text at the end of the members, under a key.
fn put_text(
    alloc: Global,
    members: &mut Items<Property>,
    key: &str,
    text: &str,
) -> Result<(), Memory>
    ensures { OnOk result (plain_properties members.new ≡ pieces.with_text key.now text.now (plain_properties members.old)) }
{
    let value = string(alloc, text)?;
    put(alloc, members, key, value)
}

// Puts the hash at the end of the members, if there is one.
fn put_hash(alloc: Global, members: &mut Items<Property>, zero: &FileCoverage) -> Result<(), Memory>
    ensures { OnOk result (plain_properties members.new ≡ pieces.with_hash zero.now.hash (plain_properties members.old)) }
{
    match &zero.hash {
        Some(hash) => put_text(alloc, members, "hash", hash.as_str()),
        None => Ok(()),
    }
}

// Puts the source map at the end of the members, if there is one.
fn put_source_map(
    alloc: Global,
    members: &mut Items<Property>,
    zero: &FileCoverage,
) -> Result<(), Memory>
    ensures { OnOk result (plain_properties members.new ≡ pieces.with_source_map zero.now.input_source_map (plain_properties members.old)) }
{
    match &zero.input_source_map {
        Some(map) => {
            let value = source_map(alloc, map)?;
            put(alloc, members, "inputSourceMap", value)
        }
        None => Ok(()),
    }
}

// The members of the coverage of a file, in the order of their keys.
fn put_file(alloc: Global, members: &mut Items<Property>, zero: &FileCoverage) -> Result<(), Memory>
    ensures { OnOk result (plain_properties members.new ≡ pieces.with_file zero.now (plain_properties members.old)) }
{
    put_things(alloc, members, "b", "branchMap", zero.branches.as_slice())?;
    put_things(alloc, members, "f", "fnMap", zero.functions.as_slice())?;
    put_hash(alloc, members, zero)?;
    put_source_map(alloc, members, zero)?;
    put_text(alloc, members, "path", zero.path.as_str())?;
    put_things(
        alloc,
        members,
        "s",
        "statementMap",
        zero.statements.as_slice(),
    )?;
    Ok(())
}

// The coverage of a file as an expression: as its JSON spells it.
#[tactic(auto, using(crate::proofs::FileData::file_literal))]
pub(crate) fn zero_literal(alloc: Global, zero: &FileCoverage) -> Result<Expr, Memory>
    ensures { IfOk result (λ e. plain_expr e ≡ spec.literal (json.file_data zero.now)) }
{
    let mut members = Items::new(alloc);
    put_file(alloc, &mut members, zero)?;
    Ok(object(members))
}
