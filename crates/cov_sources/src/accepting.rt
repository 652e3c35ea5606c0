// The acceptance of a source: its length, its characters, its tree, and the early rules on that.
ghost use Rattle.std.specs.Prelude.{◌≡◌, ◌≤◌, length, IfOk, IfErr};
ghost use Rattle.std.specs.Str.{IsUtf8};
ghost use Rattle.js_tree.specs.Plain as plain;
ghost use Rattle.js_tree.specs.Tree.{plain_file};
ghost use Rattle.js_tree.specs.Height.{height_file};
ghost use Rattle.js_text.specs.Limits.{source_limits};
ghost use Rattle.js_reading.specs.Reads.{Reads};
ghost use Rattle.js_parser.specs.Refused.{RefusesText};
ghost use Rattle.js_parser.specs.declared.refused.Refusal.TheVariants.{Memory as OutOfMemory};
ghost use Rattle.js_scopes.specs.Accepted.{Accepted};
ghost use Rattle.cov_sources.specs.Refused.{HasOnly, IsRefused};

use crate::why::Why;
use items::Memory;
use js_parser::{Refusal, Refused, parse};
use js_scopes::{Checked, ScopeFaultKind, check};
use js_text::{Limits, Text, TextFault};
use js_tree::File;
use std::alloc::{AllocError, Global};

/// The text and the tree of a source, or why the bytes are none: they are too many, they aren't
/// UTF-8, they have no tree or one that is too high, or the tree breaks an early rule. They are
/// tested in this order. Want of memory is the only error.
pub fn accept(alloc: Global, bytes: Vec<u8>) -> Result<Result<(Text, Checked), Why>, Memory>
    ensures text { IfOk result (λ answer. IfOk answer (λ source. source.0 ≡ bytes.items)) }
    ensures accepted { IfOk result (λ answer. IfOk answer (λ source. Accepted bytes.items (plain_file source.1))) }
    ensures only { IfOk result (λ answer. IfOk answer (λ source. HasOnly bytes.items (plain_file source.1))) }
    ensures refused { IfOk result (λ answer. IfErr answer (λ why. IsRefused why bytes.items)) }
    ensures no_source { IfOk result (λ answer. IfErr answer (λ why. (tree : plain.File) → Accepted bytes.items tree → ⊥)) }
{
    match text_of(alloc, bytes)? {
        Ok(text) => with_tree(alloc, text),
        Err(why) => Ok(Err(why)),
    }
}

/// The text that the bytes spell.
fn text_of(alloc: Global, bytes: Vec<u8>) -> Result<Result<Text, Why>, Memory>
    ensures text { IfOk result (λ answer. IfOk answer (λ text. text ≡ bytes.items)) }
    ensures within { IfOk result (λ answer. IfOk answer (λ text. length bytes.items ≤ source_limits.bytes)) }
    ensures utf8 { IfOk result (λ answer. IfOk answer (λ text. IsUtf8 bytes.items)) }
    ensures refused { IfOk result (λ answer. IfErr answer (λ why. IsRefused why bytes.items)) }
{
    match Text::from_bytes(alloc, bytes, Limits::source()) {
        Ok(text) => Ok(Ok(text)),
        Err(TextFault::TooLong { len }) => Ok(Err(Why::NoText(TextFault::TooLong { len }))),
        Err(TextFault::NotUtf8 { at }) => Ok(Err(Why::NoText(TextFault::NotUtf8 { at }))),
        Err(TextFault::Memory) => Err(AllocError),
    }
}

/// The text with its tree.
fn with_tree(alloc: Global, text: Text) -> Result<Result<(Text, Checked), Why>, Memory>
    requires within { length text ≤ source_limits.bytes }
    requires utf8 { IsUtf8 text }
    ensures text { IfOk result (λ answer. IfOk answer (λ source. source.0 ≡ text)) }
    ensures accepted { IfOk result (λ answer. IfOk answer (λ source. Accepted text (plain_file source.1))) }
    ensures only { IfOk result (λ answer. IfOk answer (λ source. HasOnly text (plain_file source.1))) }
    ensures refused { IfOk result (λ answer. IfErr answer (λ why. IsRefused why text)) }
{
    match checked_of(alloc, &text)? {
        Ok(file) => Ok(Ok((text, file))),
        Err(why) => Ok(Err(why)),
    }
}

/// The file that a text is read to, where it breaks no early rule.
fn checked_of(alloc: Global, text: &Text) -> Result<Result<Checked, Why>, Memory>
    requires within { length text.now ≤ source_limits.bytes }
    requires utf8 { IsUtf8 text.now }
    ensures accepted { IfOk result (λ answer. IfOk answer (λ file. Accepted text.now (plain_file file))) }
    ensures only { IfOk result (λ answer. IfOk answer (λ file. HasOnly text.now (plain_file file))) }
    ensures refused { IfOk result (λ answer. IfErr answer (λ why. IsRefused why text.now)) }
{
    match file_of(alloc, text)? {
        Ok(file) => unbroken(alloc, text, file),
        Err(why) => Ok(Err(why)),
    }
}

/// The file that a text is read to.
fn file_of(alloc: Global, text: &Text) -> Result<Result<File, Why>, Memory>
    requires within { length text.now ≤ source_limits.bytes }
    requires utf8 { IsUtf8 text.now }
    ensures reads { IfOk result (λ answer. IfOk answer (λ file. Reads text.now (plain_file file))) }
    ensures only { IfOk result (λ answer. IfOk answer (λ file. HasOnly text.now (plain_file file))) }
    ensures low { IfOk result (λ answer. IfOk answer (λ file. height_file (plain_file file) ≤ source_limits.height)) }
    ensures refused { IfOk result (λ answer. IfErr answer (λ why. IsRefused why text.now)) }
{
    match parse(alloc, text, Limits::source()) {
        Ok(file) => Ok(Ok(file)),
        Err(refused) => match refused.why {
            Refusal::Memory => Err(AllocError),
            Refusal::Syntax => Ok(Err(unread(text, refused))),
            Refusal::Unsupported(_) => Ok(Err(unread(text, refused))),
            Refusal::TooDeep => Ok(Err(unread(text, refused))),
        },
    }
}

/// The refusal of a text, with its line and column.
fn unread(text: &Text, refused: Refused) -> Why
    requires within { length text.now ≤ source_limits.bytes }
    requires utf8 { IsUtf8 text.now }
    requires refused { RefusesText refused text.now source_limits.height }
    requires caused { refused.why ≡ OutOfMemory → ⊥ }
    ensures { IsRefused result text.now }
{
    let place = text.position(refused.at);
    Why::Unread { refused, place }
}

/// The file, where it breaks no early rule.
fn unbroken(alloc: Global, text: &Text, file: File) -> Result<Result<Checked, Why>, Memory>
    requires within { length text.now ≤ source_limits.bytes }
    requires utf8 { IsUtf8 text.now }
    requires reads { Reads text.now (plain_file file) }
    requires only { HasOnly text.now (plain_file file) }
    requires low { height_file (plain_file file) ≤ source_limits.height }
    ensures accepted { IfOk result (λ answer. IfOk answer (λ checked. Accepted text.now (plain_file checked))) }
    ensures only { IfOk result (λ answer. IfOk answer (λ checked. HasOnly text.now (plain_file checked))) }
    ensures refused { IfOk result (λ answer. IfErr answer (λ why. IsRefused why text.now)) }
{
    match check(alloc, file) {
        Ok(checked) => Ok(Ok(checked)),
        Err((_, fault)) => match fault.kind {
            ScopeFaultKind::Memory => Err(AllocError),
            _ => Ok(Err(Why::Broken(fault))),
        },
    }
}
