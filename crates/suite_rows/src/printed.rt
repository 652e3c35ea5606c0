// How the trees of texts are printed, and from where in the source what is printed comes.
use crate::place::read;
use crate::spelled::{bytes_of, push_lines, push_number};
use cov_base::{Failed, Memory, MemorySink};
use js_print::{PrintFault, Printed, print, print_to};
use js_same::same;
use js_tree::{File, Pos};
use std::alloc::Global;

/// Writes the lines that the tree of a text is printed as, or where and why it is refused. Where these lines aren't
/// read again as the same, and printed as they stand, that is told below.
pub(crate) fn print_lines(alloc: Global, text: &str, page: &mut String) -> Result<(), Memory> {
    match read(alloc, bytes_of(alloc, text)?)? {
        Ok(file) => {
            let printed = print(alloc, &file)?;
            let lines = printed.bytes.as_str();
            push_lines(page, ">", lines.as_bytes())?;
            if !prints_again(alloc, &file, lines)? {
                page.push_str("! and not the same again\n")?;
            }
            Ok(())
        }
        Err(refused) => {
            page.push_str("! ")?;
            page.push_str(refused.as_str())?;
            page.push_str("\n")
        }
    }
}

/// Whether a text is read as the same tree, and printed as it stands.
fn prints_again(alloc: Global, file: &File, lines: &str) -> Result<bool, Memory> {
    match read(alloc, Vec::from_slice(alloc, lines.as_bytes())?)? {
        Ok(again) => {
            let printed = print(alloc, &again)?;
            Ok(same(file, &again) && printed.bytes.as_str() == lines)
        }
        Err(_) => Ok(false),
    }
}

/// Prints the tree of a text, so many times over, to a sink whose write of a number fails, as `TIMES NUMBER TEXT` says:
/// how many bytes it has taken, and how that ends. False where the line or the text isn't understood.
pub(crate) fn print_pieces(alloc: Global, rest: &str, page: &mut String) -> Result<bool, Memory> {
    let Some((times, rest)) = rest.split_once(' ') else {
        return Ok(false);
    };
    let Some((number, text)) = rest.split_once(' ') else {
        return Ok(false);
    };
    let (Ok(times), Ok(number)) = (times.parse::<u16>(), number.parse::<u64>()) else {
        return Ok(false);
    };
    let Ok(file) = read(alloc, repeated(alloc, times, text)?)? else {
        return Ok(false);
    };
    let mut sink = MemorySink::new(alloc, Vec::from_slice(alloc, &[number])?)?;
    let end = print_to(alloc, &file, &mut sink);
    page.push_str("= ")?;
    push_number(alloc, sink.taken().len() as u64, page)?;
    page.push_str(end_of(end))?;
    Ok(true)
}

/// The bytes of a text, so many times over.
fn repeated(alloc: Global, times: u16, text: &str) -> Result<Vec<u8>, Memory> {
    let bytes = bytes_of(alloc, text)?;
    let mut all = Vec::new(alloc);
    for _ in 0..times {
        all.extend_from_slice(&bytes)?;
    }
    Ok(all)
}

/// How a text that is printed in pieces ends.
fn end_of(end: Result<(), PrintFault>) -> &'static str {
    match end {
        Ok(()) => ", all\n",
        Err(PrintFault::Sink(Failed::Device)) => ", and the sink failed\n",
        Err(PrintFault::Sink(Failed::Memory)) => ", and the sink wanted memory\n",
        Err(PrintFault::Memory) => ", and memory was wanting\n",
    }
}

/// The marks of a printed text: where each stands, and where in the source that begins with which it stands for.
pub(crate) fn marks_of(alloc: Global, bytes: Vec<u8>) -> Result<String, Memory> {
    let file = match read(alloc, bytes)? {
        Ok(file) => file,
        Err(refused) => return Ok(refused),
    };
    let Printed { bytes: _, marks } = print(alloc, &file)?;
    let mut line = String::new(alloc);
    for mark in marks.as_slice() {
        if !line.is_empty() {
            line.push_str("; ")?;
        }
        push_position(alloc, mark.at, &mut line)?;
        line.push_str(" from ")?;
        match mark.source {
            Some(source) => push_position(alloc, source, &mut line)?,
            None => line.push_str("nowhere")?,
        }
    }
    Ok(line)
}

fn push_position(alloc: Global, at: Pos, line: &mut String) -> Result<(), Memory> {
    push_number(alloc, at.line as u64, line)?;
    line.push_str(":")?;
    push_number(alloc, at.column as u64, line)
}
