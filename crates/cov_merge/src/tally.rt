// An entry, the first one with its key, and the sums of all with that key.
#[derive(Drop)]
pub(crate) struct Tally<'a, T> {
    pub(crate) entry: &'a T,
    pub(crate) sums: Vec<u64>,
}
