// The last value of each number that was read of some mappings: the line from 1, all else from 0.
#[derive(Clone, Copy, Debug)]
pub(crate) struct State {
    pub(crate) line: u64,
    pub(crate) column: u32,
    pub(crate) source: u32,
    pub(crate) source_line: u32,
    pub(crate) source_column: u32,
    pub(crate) name: u32,
}
