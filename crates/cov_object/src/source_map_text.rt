ghost use Rattle.std.specs.Prelude.{◌≡◌, ◌≤◌, IfOk};
ghost use Rattle.serde_json.specs.Data.{depth};
ghost use Rattle.serde_json.specs.View.{view};
ghost use Rattle.cov_object.specs.Read.{source_map_text_of};
ghost use Rattle.cov_object.specs.SourceMapText.{most_depth, IsSourceMap};

use crate::floats::has_float;
use items::{Memory, Text};
use serde_json::Value;
use std::alloc::Global;
use std::marker::Model;

/// The source map of a file that was itself made from other sources: the text of its JSON, with no
/// space. It is an object, all its numbers are whole, and it nests at most 125 deep. Contracts see
/// it as the text.
#[derive(Debug, Drop)]
pub struct SourceMapText {
    text: Text,
}

impl Model for SourceMapText {
    ghost use Rattle.std.specs.Prelude.{List, ℕ};
    ghost use Rattle.cov_object.specs.SourceMapText.{IsSourceMap};

    ghost Value = { List ℕ };

    ghost view = { λ map. map.text };

    ghost invariant = { λ map. IsSourceMap map.text };
}

impl SourceMapText {
    /// The text of a JSON value, which nests at most 125 deep; `None` exactly where it is no object or
    /// has a number that isn't whole. Want of memory is the only error.
    pub fn from_value(alloc: Global, value: &Value) -> Result<Option<SourceMapText>, Memory>
        requires { depth (view value.now) ≤ most_depth }
        ensures { IfOk result (λ text. text ≡ source_map_text_of (view value.now)) }
    {
        if !value.is_object() || has_float(value) {
            return Ok(None);
        }
        let text = value.to_string(alloc)?;
        Ok(Some(SourceMapText {
            text: Text::from_string(text),
        }))
    }

    /// The text, lent.
    pub fn as_str(&self) -> &str
        ensures value { result.now ≡ self.now }
        ensures is { IsSourceMap self.now }
    {
        self.text.as_str()
    }

    /// A copy, or want of memory.
    pub fn copy(&self, alloc: Global) -> Result<SourceMapText, Memory>
        ensures { IfOk result (λ copy. copy ≡ self.now) }
    {
        Ok(SourceMapText {
            text: Text::from_str(alloc, self.text.as_str())?,
        })
    }
}
