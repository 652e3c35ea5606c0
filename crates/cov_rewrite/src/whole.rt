ghost use Rattle.std.specs.Prelude.{◌≡◌, IfOk, option_map, string_bytes};
ghost use Rattle.js_tree.specs.Tree.{plain_file, plain_stmts};
ghost use Rattle.js_walk.specs.Constructs.{constructs_file};
ghost use Rattle.js_scopes.specs.Mentions.{mentions_file};
ghost use Rattle.js_scopes.specs.Names.{names_of};
ghost use Rattle.cov_object.specs.Json.{file_data};
ghost use Rattle.cov_maps.specs.Placed.{ArePlaced};
ghost use Rattle.cov_maps.specs.Zero.{zero_file, with_map};
ghost use Rattle.cov_preamble.specs.Name as names;
ghost use Rattle.cov_rewritten.specs.Counters.{counter};
ghost use Rattle.cov_rewritten.specs.Preamble as preambles;
ghost use Rattle.cov_rewritten.specs.Whole.{from_zero, rewritten};
ghost use Rattle.source_map.specs.Write.{map_text};
ghost use Rattle.cov_hints.specs.Table.{hint_in_table};
ghost use Rattle.js_tree.specs.Comments.{hint_before};
ghost use Rattle.js_terms.specs.declared.place.Pos.{Pos};
ghost use Rattle.cov_rewrite.specs.Made as made;

use crate::blocks::after_directives;
use crate::numbering::Numbers;
use crate::site::Site;
use crate::statements::statements;
use cov_hints::{Hints, Left, ignores_file};
use cov_maps::{constructs, zero};
use cov_object::{FileCoverage, SourceMapText};
use cov_preamble::{cov_name, preamble};
use items::{Items, Memory};
use js_scopes::Checked;
use js_tree::{File, Stmt};
use source_map::{InputMap, kept_text};
use std::alloc::Global;

// The text of a source map, where there is one.
fn text_of(alloc: Global, input: Option<&InputMap>) -> Result<Option<SourceMapText>, Memory>
    ensures { IfOk result (λ text. text ≡ option_map (λ map. map_text map.now) input.entry) }
{
    match input {
        None => Ok(None),
        Some(map) => {
            let text = kept_text(alloc, map)?;
            Ok(Some(text))
        }
    }
}

// The coverage of a file that hasn't run.
fn zero_of(
    alloc: Global,
    path: &str,
    hash: &str,
    tree: &Checked,
    input: Option<&InputMap>,
) -> Result<FileCoverage, Memory>
    requires { ArePlaced (constructs_file (plain_file tree.now)) }
    ensures { IfOk result (λ zero. zero ≡ with_map (option_map (λ map. map_text map.now) input.entry) (zero_file path.now hash.now (constructs_file (plain_file tree.now)))) }
{
    let list = constructs(alloc, tree)?;
    let mut file = zero(alloc, path, hash, list.as_slice())?;
    file.input_source_map = text_of(alloc, input)?;
    Ok(file)
}

// What stands before the statements of a file with this function.
fn first_of(
    alloc: Global,
    own: &str,
    path: &str,
    hash: &str,
    tree: &Checked,
    input: Option<&InputMap>,
) -> Result<Items<Stmt>, Memory>
    requires { ArePlaced (constructs_file (plain_file tree.now)) }
    ensures { IfOk result (λ first. plain_stmts first ≡ preambles.preamble own.now path.now hash.now (file_data (with_map (option_map (λ map. map_text map.now) input.entry) (zero_file path.now hash.now (constructs_file (plain_file tree.now)))))) }
{
    let zero = zero_of(alloc, path, hash, tree, input)?;
    preamble(alloc, own, &zero)
}

// A file with its counters, and with these statements before its own.
fn with_first(alloc: Global, own: &str, first: Items<Stmt>, file: File) -> Result<File, Memory>
    ensures { IfOk result (λ r. plain_file r ≡ made.made_file (counter own.now) (plain_stmts first) (plain_file file) from_zero.counts) }
{
    let hints = Hints::of(alloc, file.comments.as_slice())?;
    with_hints(alloc, own, &hints, first, file)
}

// The same of a file of these hints.
fn with_hints<'s>(
    alloc: Global,
    own: &'s str,
    hints: &'s Hints,
    first: Items<Stmt>,
    file: File,
) -> Result<File, Memory>
    requires { (token : Pos) → hint_in_table hints.now.held token ≡ hint_before file.comments token }
    ensures { IfOk result (λ r. plain_file r ≡ made.made_file (counter own.now) (plain_stmts first) (plain_file file) from_zero.counts) }
{
    let left = Left {
        hints,
        ignored: ignores_file(&file),
    };
    let site = Site {
        alloc,
        name: own,
        left,
    };
    let mut numbers = Numbers {
        statements: 0,
        functions: 0,
        branches: 0,
    };
    let File { body, comments } = file;
    let counted = statements(site, &mut numbers, true, body)?;
    let body = after_directives(alloc, first, counted)?;
    Ok(File { body, comments })
}

/// The tree of a counted file with its counters and its preamble: nodes are moved, none is cloned. The
/// file has this path, its bytes have this hash, and the coverage that it begins with keeps the text of
/// its source map, where it has one; what is counted in it stands on lines from 1. On want of memory the
/// tree is dropped.
pub fn rewrite(
    alloc: Global,
    path: &str,
    hash: &str,
    tree: Checked,
    input: Option<&InputMap>,
) -> Result<File, Memory>
    requires { ArePlaced (constructs_file (plain_file tree)) }
    ensures { IfOk result (λ file. plain_file file ≡ rewritten (names.cov_name path.now (names_of (mentions_file (plain_file tree)))) path.now hash.now (file_data (with_map (option_map (λ map. map_text map.now) input.entry) (zero_file path.now hash.now (constructs_file (plain_file tree))))) (plain_file tree)) }
{
    let own = cov_name(alloc, path, tree.names())?;
    let name = own.as_str();
    let first = first_of(alloc, name, path, hash, &tree, input)?;
    with_first(alloc, name, first, tree.into_file())
}
