/// How the program ends.
#[derive(Clone, Copy, Debug, PartialEq, Eq)]
pub enum Status {
    /// The command's work is done.
    Ok,
    /// An exception wasn't caught.
    Threw,
    /// The words have no reading.
    Usage,
    /// A source isn't accepted.
    Refused,
    /// A coverage file isn't of the format.
    BadInput,
    /// The store failed in a read.
    ReadFault,
    /// Standard output failed in a write, or the store in a put.
    WriteFault,
    /// The program left the profile.
    Range,
    /// The steps were used up.
    Going,
    /// Want of memory.
    Memory,
    /// An input is too long, or a sum of counts reaches 2^53.
    Limit,
    /// A percentage is below its threshold.
    Below,
    /// A file that was named isn't there.
    NoFile,
}

impl Status {
    ghost use Rattle.std.specs.Prelude.{◌≡◌};
    ghost use Rattle.cov_commands.specs.Status.{code_of};

    /// The exit status of the process.
    pub fn code(self) -> u8
        ensures { result ≡ code_of self }
    {
        match self {
            Status::Ok => 0,
            Status::Threw => 1,
            Status::Usage => 2,
            Status::Refused => 3,
            Status::BadInput => 4,
            Status::ReadFault => 5,
            Status::WriteFault => 6,
            Status::Range => 7,
            Status::Going => 8,
            Status::Memory => 9,
            Status::Limit => 10,
            Status::Below => 11,
            Status::NoFile => 12,
        }
    }
}
