// The table of refusals: why a call, a reading or a writing is refused, and with which number.
#![tactic(auto)]

ghost use Rattle.std.specs.Prelude.{◌≡◌};
ghost use Rattle.refusals.specs.Table.{number_of};

use std::error::Error;
use std::fmt;

#[derive(Clone, Copy, Debug, PartialEq, Eq)]
pub enum Refusal {
    // Stream is neither 0 nor 1.
    Stream = 1,
    // That journal is closed.
    Closed,
    // Start not below end.
    Improper,
    // Start, or mark, below the journal's clock.
    Behind,
    // 1,000,000 entries already accepted.
    Spent,
    // The entry is wanted and its area already holds 64.
    AreaFull,
    // Waiting pairs plus new pairs exceed 256.
    QueueFull,
    // The state given is not sound.
    Unsound,
    // The feed ends inside a record.
    Cut,
    // Length wrong for the kind, below 2 or above 66.
    Length,
    // Kind not known in this feed.
    Kind,
    // Lent buffer shorter than the record.
    Buffer,
    // Near rule and key not below 36,000.
    NoAngle,
}

impl Refusal {
    // Its number in the table.
    pub fn number(self) -> u32
        ensures { result ≡ number_of self }
    {
        self as u32
    }
}

impl fmt::Display for Refusal {
    fn fmt<W: fmt::Write>(&self, f: &mut fmt::Formatter<W>) -> fmt::Result {
        write!(f, "{}", self.number())
    }
}

impl Error for Refusal {}
