ghost use Rattle.std.specs.Prelude.{◌≡◌, ◌≢◌, ◌≤◌, length, IfOk, IfErr, IfSome, OnOk};
ghost use Rattle.js_tree.specs.Plain as plain;
ghost use Rattle.js_tree.specs.Tree.{plain_file};
ghost use Rattle.js_text.specs.Limits.{again_limits};
ghost use Rattle.js_layout.specs.Layout.{layout, marks};
ghost use Rattle.js_scopes.specs.Accepted.{Accepted};
ghost use Rattle.cov_sim.specs.Instrumented.{instrumented, is_left_out, after_map as spec_after_map, mapped_text, with_text, Instruments, AreInstrumented};
ghost use Rattle.source_map.specs.Kept.{HasTexts};
ghost use Rattle.cov_sim.specs.Again.{IsReadAgain};
ghost use Rattle.cov_sim.specs.Headline.{HavePaths, HaveTexts, Simulates};
ghost use Rattle.cov_sources.specs.Refused.{IsRefused};
ghost use Rattle.cov_sim.specs.Refused.{RefusesFirst};
ghost use Rattle.cov_sim.specs.declared.fault.InstrumentFault.TheVariants.{Memory as OutOfMemory};

use crate::fault::InstrumentFault;
use crate::instrumented::{Instrumented, MappedText};
use crate::laws::simulating;
use cov_hash::hash_of;
use cov_hints::ignores_file;
use cov_rewrite::rewrite;
use cov_sources::{Source, Sources, Why, accept};
use items::{Items, Memory, Text};
use js_print::{Printed, print};
use js_scopes::Checked;
use js_text::Limits;
use js_tree::File;
use printed_map::map_of;
use source_map::{SourceMap, compose, look_at, write};
use std::alloc::{AllocError, Global};

/// The instrumented texts of the sources that are counted and that no comment takes out, in their
/// order, each with its map. Each is read again as the instrumented tree, within the limits of such
/// texts. Where each source stands at a path of its own that ends with `.js`, the texts do what the
/// sources do and count it. All sources are read; the first that isn't accepted is told. Only want of
/// memory may come besides.
pub fn instrument_all(
    alloc: Global,
    sources: &Sources,
) -> Result<Vec<Instrumented>, InstrumentFault>
    ensures texts { IfOk result (λ list. AreInstrumented sources.now.items list.items) }
    ensures simulates { IfOk result (λ list. HavePaths sources.now.items → Simulates sources.now.items list.items) }
    ensures refused { IfErr result (λ fault. fault ≢ OutOfMemory → RefusesFirst sources.now.items fault) }
{
    simulating();
    let slice = sources.as_slice();
    look_at_inputs(slice);
    all_of(alloc, slice)
}

// The same of a slice.
fn all_of(alloc: Global, sources: &[Source]) -> Result<Vec<Instrumented>, InstrumentFault>
    ensures texts { IfOk result (λ list. AreInstrumented sources.now list.items) }
    ensures refused { IfErr result (λ fault. fault ≢ OutOfMemory → RefusesFirst sources.now fault) }
{
    let mut list = Vec::new(alloc);
    for source in sources {
        match accepted(alloc, source)? {
            Ok(file) => {
                let text = text_for(alloc, source, file)?;
                add(alloc, &mut list, source, text)?;
            }
            Err(why) => {
                let path = Text::from_str(alloc, source.path.as_str())?;
                return Err(InstrumentFault::Refused { path, why });
            }
        }
    }
    Ok(list)
}

// The tree of a source, or why it is none.
fn accepted(alloc: Global, source: &Source) -> Result<Result<Checked, Why>, Memory>
    ensures accepted { IfOk result (λ answer. IfOk answer (λ file. Accepted source.now.bytes (plain_file file))) }
    ensures refused { IfOk result (λ answer. IfErr answer (λ why. IsRefused why source.now.bytes)) }
    ensures no_source { IfOk result (λ answer. IfErr answer (λ why. (tree : plain.File) → Accepted source.now.bytes tree → ⊥)) }
{
    let bytes = Vec::from_slice(alloc, source.bytes.as_slice())?;
    match accept(alloc, bytes)? {
        Ok((_, file)) => Ok(Ok(file)),
        Err(why) => Ok(Err(why)),
    }
}

// Adds the text of a source, where it has one.
fn add(
    alloc: Global,
    list: &mut Vec<Instrumented>,
    source: &Source,
    text: Option<MappedText>,
) -> Result<(), Memory>
    ensures { OnOk result (list.new.items ≡ with_text source.now text list.old.items) }
{
    match text {
        None => Ok(()),
        Some(made) => {
            let path = Text::from_str(alloc, source.path.as_str())?;
            list.push(Instrumented {
                path,
                text: made.text,
                map: made.map,
            })?;
            Ok(())
        }
    }
}

// Whether a source isn't counted, or a comment takes it out.
pub(crate) fn is_left(source: &Source, file: &File) -> bool
    ensures { result ≡ is_left_out source.now (plain_file file.now) }
{
    !source.counted || ignores_file(file)
}

/// The text of a source that is accepted, with its map, where the source is counted and no comment
/// takes it out, as `instrument_all` gives them. Want of memory is the only error.
pub fn text_for(alloc: Global, source: &Source, file: Checked) -> Result<Option<MappedText>, Memory>
    requires { Accepted source.now.bytes (plain_file file) }
    ensures { IfOk result (λ text. Instruments source.now (plain_file file) text) }
{
    if is_left(source, file.file()) {
        return Ok(None);
    }
    let made = mapped_text_of(alloc, source, file)?;
    Ok(Some(made))
}

// The text of a source that is counted, with its map.
fn mapped_text_of(alloc: Global, source: &Source, file: Checked) -> Result<MappedText, Memory>
    requires { Accepted source.now.bytes (plain_file file) }
    ensures made { IfOk result (λ made. made ≡ mapped_text source.now.path source.now.bytes source.now.input (plain_file file)) }
    ensures again { IfOk result (λ made. IsReadAgain made.text (instrumented source.now.path source.now.bytes source.now.input (plain_file file))) }
{
    let printed = printed_of(alloc, source, file)?;
    let map = map_of(alloc, source.path.as_str(), printed.marks.as_slice())?;
    let back = after_map(alloc, source, map)?;
    let bytes = write(alloc, &back)?;
    Ok(MappedText {
        text: printed.bytes,
        map: Items::from_vec(bytes),
    })
}

// A map and then the source's own, where it has one.
fn after_map(alloc: Global, source: &Source, map: SourceMap) -> Result<SourceMap, Memory>
    ensures { IfOk result (λ back. back ≡ spec_after_map source.now.input map) }
{
    match &source.input {
        None => Ok(map),
        Some(input) => compose(alloc, &map, input),
    }
}

/// Does nothing but look at the texts of a source's map, where it has one: they are UTF-8.
pub fn look_at_input(source: &Source)
    ensures { IfSome source.now.input HasTexts }
{
    if let Some(input) = &source.input {
        look_at(input);
    }
}

// The same of each source.
fn look_at_inputs(sources: &[Source])
    ensures { HaveTexts sources.now }
{
    for source in sources {
        look_at_input(source);
    }
}

// The text alone.
pub(crate) fn text_of(alloc: Global, source: &Source, file: Checked) -> Result<Text, Memory>
    requires { Accepted source.now.bytes (plain_file file) }
    ensures text { IfOk result (λ text. text ≡ layout (instrumented source.now.path source.now.bytes source.now.input (plain_file file))) }
    ensures again { IfOk result (λ text. IsReadAgain text (instrumented source.now.path source.now.bytes source.now.input (plain_file file))) }
{
    let printed = printed_of(alloc, source, file)?;
    Ok(printed.bytes)
}

// What a source that is counted is printed as, once it is instrumented.
fn printed_of(alloc: Global, source: &Source, file: Checked) -> Result<Printed, Memory>
    requires { Accepted source.now.bytes (plain_file file) }
    ensures text { IfOk result (λ printed. printed.bytes ≡ layout (instrumented source.now.path source.now.bytes source.now.input (plain_file file))) }
    ensures marks { IfOk result (λ printed. printed.marks ≡ marks (instrumented source.now.path source.now.bytes source.now.input (plain_file file))) }
    ensures again { IfOk result (λ printed. IsReadAgain printed.bytes (instrumented source.now.path source.now.bytes source.now.input (plain_file file))) }
{
    look_at_input(source);
    let hash = hash_of(alloc, source.bytes.as_slice())?;
    let tree = rewrite(
        alloc,
        source.path.as_str(),
        hash.as_str(),
        file,
        source.input.as_ref(),
    )?;
    let printed = short(print(alloc, &tree)?)?;
    Ok(printed)
}

// What has a text within the limits of what is read again: a longer one is want of memory.
fn short(printed: Printed) -> Result<Printed, Memory>
    ensures same { IfOk result (λ answer. answer ≡ printed) }
    ensures within { IfOk result (λ answer. length answer.bytes ≤ again_limits.bytes) }
{
    if printed.bytes.as_str().len() as u64 > Limits::again().bytes {
        return Err(AllocError);
    }
    Ok(printed)
}
