ghost use Rattle.std.specs.Prelude.{◌≡◌, ℕ, ◌++◌, List, Option, OnOk, take};
ghost use Rattle.cov_base.specs.Causes.{HasCause};
ghost use Rattle.cov_base.specs.Sink.{after_more, count_of, TakesSome, TakesPrefix};

use crate::Failed;

/// Where bytes go. A sink may tell what it has taken, and counts its faults in a number that never
/// falls. Want of memory is no fault, and isn't counted.
pub trait Sink {
    /// The bytes that the sink has taken, where it tells them.
    ghost taken: { Self → Option (List ℕ) };

    /// How many writes answered `Device`; it stands still at 2^64 - 1.
    ghost faults: { Self → ℕ };

    /// That the first, given these bytes to write, may answer want of memory and become the second.
    ghost wants: { Self → List ℕ → Self → Type 0 } = { λ _ _ _. Unit {0} };

    /// Takes the first bytes of the piece and says how many, at least one where there is one. A
    /// write that failed has taken none.
    fn write(&mut self, bytes: &[u8]) -> Result<usize, Failed>
        ensures bound { TakesSome result bytes.now }
        ensures taken { taken self.new ≡ after_more (taken self.old) (take (count_of result) bytes.now) }
        ensures cause { HasCause (faults self.old) (faults self.new) result }
        ensures memory { result ≡ Err Failed.Memory → wants self.old bytes.now self.new };
}

/// Writes all the bytes, in at most as many turns as there are bytes. After a failure, which it
/// passes on, the sink has taken a prefix. It takes no memory: want of memory is the answer of a
/// write, the last one, of the bytes that were left.
pub fn write_all<S: Sink>(sink: &mut S, bytes: &[u8]) -> Result<(), Failed>
    ensures all { OnOk result (S.taken sink.new ≡ after_more (S.taken sink.old) bytes.now) }
    ensures prefix { TakesPrefix (S.taken sink.old) (S.taken sink.new) bytes.now }
    ensures cause { HasCause (S.faults sink.old) (S.faults sink.new) result }
    ensures memory { result ≡ Err Failed.Memory
        → (before : S) × (done : List ℕ) × (rest : List ℕ) × (bytes.now ≡ done ++ rest)
        × (S.taken before ≡ after_more (S.taken sink.old) done) × S.wants before rest sink.new }
{
    let mut rest = bytes;
    while !rest.is_empty() {
        let count = sink.write(rest)?;
        rest = &rest[count..];
    }
    Ok(())
}
