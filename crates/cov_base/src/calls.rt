ghost use Rattle.std.specs.Prelude.{◌≡◌, ◌↔◌, Contains, IsTrue};
ghost use Rattle.cov_base.specs.private.Calls.{raised};

/// The calls of an object, numbered from 1, with the numbers of those that fail.
#[derive(Debug, Drop)]
pub(crate) struct Calls {
    made: u64,
    fails: Vec<u64>,
}

impl Calls {
    pub(crate) fn new(fails: Vec<u64>) -> Calls
        ensures made { result.made ≡ 0 }
        ensures fails { result.fails.items ≡ fails.items }
    {
        Calls { made: 0, fails }
    }

    /// Numbers one more call, and says whether it fails.
    pub(crate) fn next_fails(&mut self) -> bool
        ensures value { IsTrue result ↔ Contains self.old.fails.items (raised self.old.made) }
        ensures made { self.new.made ≡ raised self.old.made }
        ensures fails { self.new.fails.items ≡ self.old.fails.items }
    {
        self.made = self.made.saturating_add(1);
        self.fails.as_slice().contains(&self.made)
    }
}
