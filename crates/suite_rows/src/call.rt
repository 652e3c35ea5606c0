// Calls of the program's top call over memory.
use crate::spelled::{bytes_of, push_lines, push_number, text_of};
use crate::wanting::{WantingSink, WantingStore};
use cov_base::{Memory, MemorySink, MemoryStore, Store, SureSink, SureStore};
use cov_tool::{Status, cov};
use std::alloc::Global;
use std::collections::BTreeMap;

// How many calls are made at most with a write that fails.
const MOST_WRITES: u64 = 64;

/// A file that the store holds.
#[derive(Drop)]
struct Held {
    path: String,
    bytes: Vec<u8>,
}

/// The numbers of the calls that fail, and of those that want memory.
#[derive(Drop)]
struct Numbers {
    fails: Vec<u64>,
    wants: Vec<u64>,
}

impl Numbers {
    fn new(alloc: Global) -> Numbers {
        Numbers {
            fails: Vec::new(alloc),
            wants: Vec::new(alloc),
        }
    }

    fn are_none(&self) -> bool {
        self.fails.is_empty() && self.wants.is_empty()
    }

    fn sink(&self, alloc: Global) -> Result<WantingSink, Memory> {
        let sink = MemorySink::new(alloc, copied(alloc, &self.fails)?)?;
        Ok(WantingSink::new(sink, copied(alloc, &self.wants)?))
    }
}

/// What the store holds, and which calls fail or want memory.
#[derive(Drop)]
pub(crate) struct Setting {
    files: Vec<Held>,
    store: Numbers,
    out: Numbers,
    err: Numbers,
}

impl Setting {
    pub(crate) fn new(alloc: Global) -> Setting {
        Setting {
            files: Vec::new(alloc),
            store: Numbers::new(alloc),
            out: Numbers::new(alloc),
            err: Numbers::new(alloc),
        }
    }

    /// Holds a text at a path from here on. False where no path is named.
    pub(crate) fn hold(&mut self, alloc: Global, rest: &str) -> Result<bool, Memory> {
        let (path, text) = rest.split_once(' ').unwrap_or((rest, ""));
        let bytes = bytes_of(alloc, text)?;
        self.put(alloc, path, bytes)
    }

    /// Holds a text of a part again and again, a middle, as often another part, and an end. False
    /// where the row hasn't these fields.
    pub(crate) fn hold_nested(&mut self, alloc: Global, rest: &str) -> Result<bool, Memory> {
        let Some((path, fields)) = rest.split_once(' ') else {
            return Ok(false);
        };
        match nested(alloc, fields)? {
            Some(bytes) => self.put(alloc, path, bytes),
            None => Ok(false),
        }
    }

    fn put(&mut self, alloc: Global, path: &str, bytes: Vec<u8>) -> Result<bool, Memory> {
        if path.is_empty() {
            return Ok(false);
        }
        let path = text_of(alloc, path)?;
        self.files.push(Held { path, bytes })?;
        Ok(true)
    }

    fn numbers(&mut self, who: &str) -> Option<&mut Numbers> {
        match who {
            "store" => Some(&mut self.store),
            "out" => Some(&mut self.out),
            "err" => Some(&mut self.err),
            _ => None,
        }
    }

    /// Lets a call fail from here on. False where the row names no call.
    pub(crate) fn fail(&mut self, rest: &str) -> Result<bool, Memory> {
        let Some((who, number)) = call_in(rest) else {
            return Ok(false);
        };
        let Some(numbers) = self.numbers(who) else {
            return Ok(false);
        };
        numbers.fails.push(number)?;
        Ok(true)
    }

    /// Lets a call want memory from here on. False where the row names no call.
    pub(crate) fn want(&mut self, rest: &str) -> Result<bool, Memory> {
        let Some((who, number)) = call_in(rest) else {
            return Ok(false);
        };
        let Some(numbers) = self.numbers(who) else {
            return Ok(false);
        };
        numbers.wants.push(number)?;
        Ok(true)
    }

    /// Calls the program with the words, and writes what it answers. Where nothing is to fail, it is
    /// called over the store and the sinks that never do.
    pub(crate) fn call(&self, alloc: Global, words: &str, page: &mut String) -> Result<(), Memory> {
        let words = words_of(alloc, words)?;
        self.call_with(alloc, words.as_slice(), None, page)
    }

    // The same, and what the store then holds at the path, where there is one.
    fn call_with(
        &self,
        alloc: Global,
        words: &[String],
        path: Option<&str>,
        page: &mut String,
    ) -> Result<(), Memory> {
        if self.store.are_none() && self.out.are_none() && self.err.are_none() {
            self.call_surely(alloc, words, path, page)
        } else {
            self.call_failing(alloc, words, path, page)
        }
    }

    /// The same, and what the store then holds at a path. False where the row names no path.
    pub(crate) fn call_putting(
        &self,
        alloc: Global,
        rest: &str,
        page: &mut String,
    ) -> Result<bool, Memory> {
        let Some((path, words)) = rest.split_once(' ') else {
            return Ok(false);
        };
        let words = words_of(alloc, words)?;
        self.call_with(alloc, words.as_slice(), Some(path), page)?;
        Ok(true)
    }

    /// Calls the program with the words again and again, the first write to `out` failing, then the second one, and so on until
    /// no write fails; writes the status of each call, and how many bytes `out` has taken then.
    pub(crate) fn call_breaking(
        &self,
        alloc: Global,
        words: &str,
        page: &mut String,
    ) -> Result<(), Memory> {
        let words = words_of(alloc, words)?;
        for number in 1..=MOST_WRITES {
            if self
                .call_broken(alloc, words.as_slice(), number, page)?
                .code()
                == 0
            {
                break;
            }
        }
        Ok(())
    }

    // The same with the write of this number, which gives the status.
    fn call_broken(
        &self,
        alloc: Global,
        words: &[String],
        number: u64,
        page: &mut String,
    ) -> Result<Status, Memory> {
        let store = MemoryStore::new(alloc, self.held(alloc)?, Vec::new(alloc))?;
        let mut store = WantingStore::new(store, Vec::new(alloc));
        let mut broken = Numbers::new(alloc);
        broken.fails.push(number)?;
        let mut out = broken.sink(alloc)?;
        let mut err = Numbers::new(alloc).sink(alloc)?;
        let status = cov(alloc, words, &mut store, &mut out, &mut err);
        page.push_str("= ")?;
        push_number(alloc, status.code() as u64, page)?;
        page.push_str(" ")?;
        push_number(alloc, out.taken().len() as u64, page)?;
        page.push_str("\n")?;
        Ok(status)
    }

    fn call_surely(
        &self,
        alloc: Global,
        words: &[String],
        path: Option<&str>,
        page: &mut String,
    ) -> Result<(), Memory> {
        let mut store = SureStore::new(alloc, self.held(alloc)?)?;
        let mut out = SureSink::new(alloc)?;
        let mut err = SureSink::new(alloc)?;
        let status = cov(alloc, words, &mut store, &mut out, &mut err);
        push_answer(alloc, out.taken(), err.taken(), status, page)?;
        push_held(&mut store, path, page)
    }

    fn call_failing(
        &self,
        alloc: Global,
        words: &[String],
        path: Option<&str>,
        page: &mut String,
    ) -> Result<(), Memory> {
        let fails = copied(alloc, &self.store.fails)?;
        let store = MemoryStore::new(alloc, self.held(alloc)?, fails)?;
        let mut store = WantingStore::new(store, copied(alloc, &self.store.wants)?);
        let mut out = self.out.sink(alloc)?;
        let mut err = self.err.sink(alloc)?;
        let status = cov(alloc, words, &mut store, &mut out, &mut err);
        push_answer(alloc, out.taken(), err.taken(), status, page)?;
        push_held(&mut store, path, page)
    }

    fn held(&self, alloc: Global) -> Result<BTreeMap<String, Vec<u8>>, Memory> {
        let mut held = BTreeMap::new(alloc);
        for file in &self.files {
            let path = String::from_str(alloc, file.path.as_str())?;
            held.insert(path, Vec::from_slice(alloc, file.bytes.as_slice())?)?;
        }
        Ok(held)
    }
}

/// The lines printed and said, and the status.
fn push_answer(
    alloc: Global,
    out: &[u8],
    err: &[u8],
    status: Status,
    page: &mut String,
) -> Result<(), Memory> {
    push_lines(page, ">", out)?;
    push_lines(page, "!", err)?;
    page.push_str("= ")?;
    push_number(alloc, status.code() as u64, page)?;
    page.push_str("\n")
}

/// The lines that the store holds at a path, if one is named and it holds a file there.
fn push_held<S: Store>(store: &mut S, path: Option<&str>, page: &mut String) -> Result<(), Memory> {
    let Some(path) = path else {
        return Ok(());
    };
    match store.read(path) {
        Ok(Some(bytes)) => push_lines(page, "+", bytes.as_slice()),
        Ok(None) | Err(_) => Ok(()),
    }
}

/// Who is called, and the number of the call.
fn call_in(rest: &str) -> Option<(&str, u64)> {
    let (who, number) = rest.split_once(' ')?;
    match number.parse::<u64>() {
        Ok(number) if number > 0 => Some((who, number)),
        _ => None,
    }
}

fn copied(alloc: Global, numbers: &Vec<u64>) -> Result<Vec<u64>, Memory> {
    Vec::from_slice(alloc, numbers.as_slice())
}

/// The text of the fields `N BEFORE MIDDLE AFTER END`.
fn nested(alloc: Global, fields: &str) -> Result<Option<Vec<u8>>, Memory> {
    let mut parts = fields.split(' ');
    let Some(count) = parts.next() else {
        return Ok(None);
    };
    let Ok(count) = count.parse::<u64>() else {
        return Ok(None);
    };
    let (Some(before), Some(middle), Some(after), Some(end), None) = (
        parts.next(),
        parts.next(),
        parts.next(),
        parts.next(),
        parts.next(),
    ) else {
        return Ok(None);
    };
    let mut bytes = Vec::new(alloc);
    push_times(alloc, count, before, &mut bytes)?;
    push_times(alloc, 1, middle, &mut bytes)?;
    push_times(alloc, count, after, &mut bytes)?;
    push_times(alloc, 1, end, &mut bytes)?;
    Ok(Some(bytes))
}

fn push_times(alloc: Global, count: u64, field: &str, bytes: &mut Vec<u8>) -> Result<(), Memory> {
    let part = bytes_of(alloc, unquoted(field))?;
    for _ in 0..count {
        bytes.extend_from_slice(part.as_slice())?;
    }
    Ok(())
}

/// The words of a row. Between words stands a blank, and `''` is the word without a letter.
fn words_of(alloc: Global, rest: &str) -> Result<Vec<String>, Memory> {
    let mut words = Vec::new(alloc);
    if !rest.is_empty() {
        for word in rest.split(' ') {
            words.push(text_of(alloc, unquoted(word))?)?;
        }
    }
    Ok(words)
}

fn unquoted(field: &str) -> &str {
    if field == "''" { "" } else { field }
}
