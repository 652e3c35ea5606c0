use items::Text;

/// What is wrong with a coverage file, or with the source map of a file in it.
#[derive(Debug, Drop)]
pub enum What {
    /// It is no JSON.
    NotJson,
    /// This member is missing or isn't of its form.
    Member { name: Text },
    /// This count isn't a whole number from 0 to 2^53 - 1.
    Count { name: Text },
    /// The segment of a source map after so many bytes of its mappings isn't of its form.
    Mappings { at: u64 },
}

/// Why coverage files have no sums.
#[derive(Debug, Drop)]
pub enum Refusal {
    /// There is no file at this path.
    NoFile { path: Text },
    /// The coverage file at this path is longer than 16 MiB, or the source than 1,048,576 bytes.
    TooLong { path: Text },
    /// The source at this path isn't UTF-8 from this byte on: only V8's coverage names sources.
    NotUtf8 { path: Text, at: u64 },
    /// The file at this path is no coverage file, or a source map in it is none.
    BadInput { path: Text, what: What },
    /// The counts of a key come to 2^53 or more: this is the running sum where it first does.
    CountTooLarge { sum: u64 },
}
