ghost use Rattle.std.specs.Prelude.{◌≡◌, IfOk, OnOk};
ghost use Rattle.cov_base.specs.Sink.{after_more, TakesPrefix};
ghost use Rattle.js_tree.specs.Tree.{plain_file};
ghost use Rattle.js_layout.specs.Layout as spec;
ghost use Rattle.js_layout.specs.Printable.{Printable};
ghost use Rattle.js_sheet.specs.Fault.{HasPrintCause};
ghost use Rattle.js_print.specs.Again.{ReadAgain, OfSources};

use crate::walk::statements;
use cov_base::{Sink, SureSink};
use items::{Items, Memory, Text};
use js_layout::Mark;
use js_sheet::{PrintFault, Sheet, place_marks};
use js_tree::File;
use std::alloc::Global;

/// What a file is printed as.
#[derive(Debug, Drop)]
pub struct Printed {
    /// The text.
    pub bytes: Text,
    /// The marks, in the order of their places.
    pub marks: Items<Mark>,
}

/// Prints a file: its tokens in order, in parentheses what its place asks to stand so and nothing
/// else, a space where two tokens would meet as one, and an LF after each `;` that ends a statement
/// and each brace of a block, a body or a `switch`. Its comments aren't printed.
///
/// There is a mark for each statement, declarator, function and expression that has a place in the
/// source, at its first token, of several at one token for the outermost; and one without source at
/// the first of each run of tokens that have none. Lines count from 1, columns from 0 in UTF-16
/// units. It fails for want of memory alone.
#[tactic(auto, using(crate::proofs::Printing::printed_rules))]
pub fn print(alloc: Global, file: &File) -> Result<Printed, Memory>
    ensures bytes { IfOk result (λ printed. printed.bytes ≡ spec.layout (plain_file file.now)) }
    ensures marks { IfOk result (λ printed. printed.marks ≡ spec.marks (plain_file file.now)) }
    ensures again { IfOk result (λ printed. Printable (plain_file file.now) → ReadAgain printed.bytes (plain_file file.now)) }
    ensures sources { IfOk result (λ printed. OfSources printed.bytes (plain_file file.now)) }
{
    let mut to = Sheet::whole(alloc);
    let mut unused = SureSink::new(alloc)?;
    statements(&mut to, &mut unused, file.body.as_slice());
    let (text, offsets) = to.finish_whole(&mut unused)?;
    let marks = place_marks(alloc, &text, &offsets)?;
    Ok(Printed {
        bytes: Text::from_string(text),
        marks,
    })
}

/// Prints a file to a sink: the same text, by the same walk, in pieces of 4,096 bytes, of which the
/// last may have fewer. Room for a piece is all the memory that is taken but for the spellings of
/// regular expressions. After a fault the sink has taken a prefix.
pub fn print_to<S: Sink>(alloc: Global, file: &File, sink: &mut S) -> Result<(), PrintFault>
    ensures all { OnOk result (S.taken sink.new ≡ after_more (S.taken sink.old) (spec.layout (plain_file file.now))) }
    ensures prefix { TakesPrefix (S.taken sink.old) (S.taken sink.new) (spec.layout (plain_file file.now)) }
    ensures cause { HasPrintCause (S.faults sink.old) (S.faults sink.new) result }
{
    let mut to = Sheet::in_pieces(alloc)?;
    statements(&mut to, sink, file.body.as_slice());
    to.finish_in_pieces(sink)
}
