// What the coverage of a file keeps of its source map, and what the map's type says of its texts.
ghost use Rattle.std.specs.Prelude.{◌≡◌, IfOk, IfSome};
ghost use Rattle.std.specs.Str.{IsUtf8};
ghost use Rattle.source_map.specs.Kept.{AreTexts, AreSources, HasTexts};
ghost use Rattle.source_map.specs.Write.{map_text};

use crate::place::Parts;
use crate::written::value_of;
use cov_object::SourceMapText;
use items::{Memory, Text};
use std::alloc::Global;

// Looks at the text of a source, where it has one.
fn look_at_source(source: &Option<Text>)
    ensures { IfSome source.now IsUtf8 }
{
    if let Some(text) = source {
        let _text = text.as_str();
    }
}

fn look_at_sources(sources: &[Option<Text>])
    ensures { AreSources sources.now }
{
    for source in sources {
        look_at_source(source);
    }
}

fn look_at_names(names: &[Text])
    ensures { AreTexts names.now }
{
    for name in names {
        let _text = name.as_str();
    }
}

pub(crate) fn look_at_parts(parts: &Parts)
    ensures { HasTexts parts.now }
{
    look_at_sources(parts.sources.as_slice());
    look_at_names(parts.names.as_slice());
}

// The text of a map of these parts.
pub(crate) fn kept_parts(alloc: Global, parts: &Parts) -> Result<SourceMapText, Memory>
    ensures { IfOk result (λ text. text ≡ map_text parts.now) }
{
    let value = value_of(alloc, parts)?;
    match SourceMapText::from_value(alloc, &value)? {
        Some(text) => Ok(text),
        None => unreachable!(),
    }
}
