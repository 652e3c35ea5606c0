ghost use Rattle.std.specs.Prelude.{◌≡◌, ℕ, List, Option};
ghost use Rattle.cov_base.specs.Causes.{HasCause};
ghost use Rattle.cov_base.specs.Store.{Held, ReadsHeld, PutsAt};

use crate::Failed;

/// Files by their paths. A store may tell what it holds, and counts the faults of its reads and
/// of its puts, each in a number that never falls. Want of memory is no fault, and isn't counted.
pub trait Store {
    /// The bytes at each path, where the store tells them.
    ghost held: { Self → Option Held };

    /// How many reads answered `Device`; it stands still at 2^64 - 1.
    ghost read_faults: { Self → ℕ };

    /// How many puts answered `Device`; it stands still at 2^64 - 1.
    ghost put_faults: { Self → ℕ };

    /// That a read of this path may answer `Device` and turn the first into the second.
    ghost fails: { Self → List ℕ → Self → Type 0 } = { λ _ _ _. Unit {0} };

    /// What is held at the path, `None` where nothing is. Nothing held changes.
    fn read(&mut self, path: &str) -> Result<Option<Vec<u8>>, Failed>
        ensures value { ReadsHeld (held self.old) path.now result }
        ensures unchanged { held self.new ≡ held self.old }
        ensures cause { HasCause (read_faults self.old) (read_faults self.new) result }
        ensures puts { put_faults self.new ≡ put_faults self.old }
        ensures failed { result ≡ Err Failed.Device → fails self.old path.now self.new };

    /// Sets the path, and no other, to the bytes. After a failure the path holds anything, and all
    /// others stay.
    fn put(&mut self, path: &str, bytes: &[u8]) -> Result<(), Failed>
        ensures value { PutsAt path.now bytes.now (held self.old) (held self.new) result }
        ensures cause { HasCause (put_faults self.old) (put_faults self.new) result }
        ensures reads { read_faults self.new ≡ read_faults self.old };
}
