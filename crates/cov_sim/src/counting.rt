ghost use Rattle.std.specs.Prelude.{◌≡◌, ◌≤◌, length, IfOk};
ghost use Rattle.std.specs.Str.{IsUtf8};
ghost use Rattle.js_tree.specs.Plain as plain;
ghost use Rattle.js_tree.specs.Tree.{plain_file};
ghost use Rattle.js_tree.specs.Height.{height_file};
ghost use Rattle.js_text.specs.Limits.{again_limits};
ghost use Rattle.js_reading.specs.Reads.{Reads};
ghost use Rattle.js_scopes.specs.Accepted.{Accepted, AcceptedAgain};
ghost use Rattle.cov_sources.specs.Refused.{HasOnly};
ghost use Rattle.cov_sim.specs.Again.{IsReadAgain};
ghost use Rattle.cov_sim.specs.Counting.{RunsAs};

use crate::instrumenting::{is_left, text_of};
use cov_sources::Source;
use items::{Memory, Text};
use js_parser::{Refusal, parse};
use js_scopes::{Checked, ScopeFaultKind, check_again};
use js_text::{Limits, TextFault};
use js_tree::File;
use std::alloc::{AllocError, Global};

/// The tree that runs in place of an accepted source, so that it counts its own coverage: the source's tree itself where it
/// isn't counted or a comment takes it out, and else the tree that its text, instrumented, is read again to. Want of memory
/// is the only error.
pub fn counting_tree(alloc: Global, source: &Source, tree: Checked) -> Result<Checked, Memory>
    requires { Accepted source.now.bytes (plain_file tree) }
    ensures { IfOk result (λ other. RunsAs source.now (plain_file tree) (plain_file other)) }
{
    if is_left(source, tree.file()) {
        return Ok(tree);
    }
    let text = text_of(alloc, source, tree)?;
    read_again(alloc, text)
}

// The tree of a text that is read again.
fn read_again(alloc: Global, text: Text) -> Result<Checked, Memory>
    requires { (file : plain.File) × IsReadAgain text file }
    ensures accepted { IfOk result (λ tree. AcceptedAgain text (plain_file tree)) }
    ensures only { IfOk result (λ tree. HasOnly text (plain_file tree)) }
{
    let text = text_again(alloc, text)?;
    let file = file_again(alloc, &text)?;
    match check_again(alloc, file) {
        Ok(tree) => Ok(tree),
        Err((_, fault)) => match fault.kind {
            ScopeFaultKind::Memory => Err(AllocError),
            _ => unreachable!(),
        },
    }
}

// The text, within the limits of such.
fn text_again(alloc: Global, text: Text) -> Result<js_text::Text, Memory>
    requires within { length text ≤ again_limits.bytes }
    requires utf8 { IsUtf8 text }
    ensures { IfOk result (λ again. again ≡ text) }
{
    let bytes = text.into_string().into_bytes();
    match js_text::Text::from_bytes(alloc, bytes, Limits::again()) {
        Ok(text) => Ok(text),
        Err(fault) => match fault {
            TextFault::Memory => Err(AllocError),
            _ => unreachable!(),
        },
    }
}

// The tree that it is read to.
fn file_again(alloc: Global, text: &js_text::Text) -> Result<File, Memory>
    requires { (tree : plain.File) × Reads text.now tree × (height_file tree ≤ again_limits.height) }
    ensures reads { IfOk result (λ file. Reads text.now (plain_file file)) }
    ensures only { IfOk result (λ file. HasOnly text.now (plain_file file)) }
    ensures low { IfOk result (λ file. height_file (plain_file file) ≤ again_limits.height) }
{
    match parse(alloc, text, Limits::again()) {
        Ok(file) => Ok(file),
        Err(refused) => match refused.why {
            Refusal::Memory => Err(AllocError),
            _ => unreachable!(),
        },
    }
}
