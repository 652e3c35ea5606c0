ghost use Rattle.std.specs.Prelude.{◌≡◌, ◌<◌, ◌^◌};

use std::marker::Model;

/// How often something ran: a number below 2^53. Contracts see it as the number.
#[derive(Clone, Copy, Debug)]
pub struct Count(u64);

impl Model for Count {
    ghost use Rattle.std.specs.Prelude.{ℕ, ◌<◌, ◌^◌};

    ghost Value = { ℕ };

    ghost view = { λ count. count.0 };

    ghost invariant = { λ count. count.0 < 2 ^ 53 };

    ghost inverse = { λ n. record { 0 = n } };
}

impl Count {
    /// A count of so many.
    pub fn new(number: u64) -> Count
        requires { number < 2 ^ 53 }
        ensures { result ≡ number }
    {
        Count(number)
    }

    /// The number.
    pub fn get(self) -> u64
        ensures value { result ≡ self }
        ensures exact { result < 2 ^ 53 }
    {
        self.0
    }
}

/// The number of a line, from 1. Contracts see it as the number.
#[derive(Clone, Copy, Debug)]
pub struct Line(u32);

impl Model for Line {
    ghost use Rattle.std.specs.Prelude.{ℕ, ◌<◌};

    ghost Value = { ℕ };

    ghost view = { λ line. line.0 };

    ghost invariant = { λ line. 0 < line.0 };

    ghost inverse = { λ n. record { 0 = n } };
}

impl Line {
    /// The line of this number.
    pub fn new(number: u32) -> Line
        requires { 0 < number }
        ensures { result ≡ number }
    {
        Line(number)
    }

    /// The number.
    pub fn get(self) -> u32
        ensures value { result ≡ self }
        ensures from_one { 0 < result }
    {
        self.0
    }
}
