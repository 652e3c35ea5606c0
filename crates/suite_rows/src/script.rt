// Files of rows. A line is a word for what is to be done and what it is done to:
//
//     # TEXT           nothing
//     file PATH TEXT   from here on the store holds this text at the path
//     nested PATH N BEFORE MIDDLE AFTER END   from here on it holds this text: BEFORE and AFTER stand N times
//     fails WHO N      from here on call N to `store`, `out` or `err` fails
//     wants WHO N      from here on call N to `store`, `out` or `err` wants memory
//     (no word)        from here on the store is empty, and nothing fails
//     cov WORDS        calls the program: below it stand the lines printed (`>`) and said (`!`), and the status (`=`)
//     puts PATH WORDS  the same, and what the store then holds at the path (`+`), if anything
//     breaks WORDS     the same again and again, the first write to `out` failing, then the second, and so on until none
//                      fails: the status of each call, and how many bytes `out` has taken then (`=`)
//     parts N,N,.. TEXT   runs the text by so many steps, then by so many more: for each part the lines printed so far
//                      (`>`), and how the run ends with the steps given so far (`=`)
//     tokens TEXT      the text's tokens
//     template TEXT    the token that continues a template at the text's start
//     names TEXT       the names that the text writes, and what it asks for
//     height TEXT      the height of the tree that the text is read to
//     same TEXT <> TEXT   whether the two are read to the same but for places and parentheses
//     prelude TEXT     whether the text is that of the host's prelude, and is read to the tree that stands for it, but
//                      for places and parentheses
//     prints TEXT      the lines that the tree of the text is printed as (`>`), or where and why it is refused (`!`)
//     pieces TIMES N TEXT   prints the tree of the text, TIMES over, to a sink whose write N fails: how many bytes it has
//                      taken then, and how that ends (`=`)
//     marks TEXT       the marks of these lines, and what begins there in the text
//     matches PATTERN PATH   whether the pattern stands for the path
//
// Texts, paths and words are in percent encoding, and so is what is printed and said. A line that is none of these
// ends the program.
use crate::call::Setting;
use crate::names::names_of;
use crate::parts::run_parts;
use crate::pattern::matches_of;
use crate::printed::{marks_of, print_lines, print_pieces};
use crate::shape::{height_of, prelude_of, same_of};
use crate::spelled::bytes_of;
use crate::tokens::{template_of, tokens_of};
use cov_base::Memory;
use std::alloc::Global;

/// The lines of a file of rows, with the answers that are found in place of those that are written, or the number of
/// the first line that isn't understood.
pub(crate) fn answered(alloc: Global, script: &str) -> Result<Result<String, u64>, Memory> {
    let mut page = String::new(alloc);
    let mut setting = Setting::new(alloc);
    let mut number: u64 = 0;
    for line in script.lines() {
        number = number.saturating_add(1);
        if !is_answer(line) {
            page.push_str(line)?;
            page.push_str("\n")?;
            if !perform(alloc, line, &mut setting, &mut page)? {
                return Ok(Err(number));
            }
        }
    }
    Ok(Ok(page))
}

fn is_answer(line: &str) -> bool {
    matches!(line.as_bytes().first(), Some(b'>' | b'!' | b'=' | b'+'))
}

/// Does what a line says, and writes its answer. False where the line isn't understood.
fn perform(
    alloc: Global,
    line: &str,
    setting: &mut Setting,
    page: &mut String,
) -> Result<bool, Memory> {
    if line.is_empty() {
        *setting = Setting::new(alloc);
        return Ok(true);
    }
    let (word, rest) = line.split_once(' ').unwrap_or((line, ""));
    match word {
        "#" => Ok(true),
        "file" => setting.hold(alloc, rest),
        "nested" => setting.hold_nested(alloc, rest),
        "fails" => setting.fail(rest),
        "wants" => setting.want(rest),
        "cov" => {
            setting.call(alloc, rest, page)?;
            Ok(true)
        }
        "puts" => setting.call_putting(alloc, rest, page),
        "breaks" => {
            setting.call_breaking(alloc, rest, page)?;
            Ok(true)
        }
        "parts" => run_parts(alloc, rest, page),
        "prints" => {
            print_lines(alloc, rest, page)?;
            Ok(true)
        }
        "pieces" => print_pieces(alloc, rest, page),
        _ => match answer(alloc, word, rest)? {
            Some(answer) => {
                page.push_str("> ")?;
                page.push_str(answer.as_str())?;
                page.push_str("\n")?;
                Ok(true)
            }
            None => Ok(false),
        },
    }
}

/// What a library answers to a text, if the word names one.
fn answer(alloc: Global, word: &str, text: &str) -> Result<Option<String>, Memory> {
    match word {
        "tokens" => Ok(Some(tokens_of(alloc, bytes_of(alloc, text)?)?)),
        "template" => Ok(Some(template_of(alloc, bytes_of(alloc, text)?)?)),
        "names" => Ok(Some(names_of(alloc, bytes_of(alloc, text)?)?)),
        "marks" => Ok(Some(marks_of(alloc, bytes_of(alloc, text)?)?)),
        "height" => Ok(Some(height_of(alloc, bytes_of(alloc, text)?)?)),
        "same" => same_of(alloc, text),
        "matches" => matches_of(alloc, text),
        "prelude" => Ok(Some(prelude_of(alloc, bytes_of(alloc, text)?)?)),
        _ => Ok(None),
    }
}
