// Half-open intervals: whether one holds an instant, how long it is, and where two of them meet.
#![tactic(auto)]

ghost use Rattle.std.specs.Prelude.{◌≡◌};
ghost use Rattle.interval.specs.Interval.{holds_at, proper_of, length_of, meeting_of};

use std::fmt;

// From start up to end, the end left out.
#[derive(Clone, Copy, Debug, Default, PartialEq, Eq)]
pub struct Interval {
    pub start: u32,
    pub end: u32,
}

#[tactic(auto, unfolding(crate::specs::Interval::holds_at, crate::specs::Interval::proper_of, crate::specs::Interval::length_of, crate::specs::Interval::meeting_of))]
impl Interval {
    // Does it hold at the instant t?
    pub fn holds(self, t: u32) -> bool
        ensures { result ≡ holds_at t self }
    {
        self.start <= t && t < self.end
    }

    // Is there an instant at which it holds?
    pub fn proper(self) -> bool
        ensures { result ≡ proper_of self }
    {
        self.start < self.end
    }

    // How many milliseconds it holds.
    pub fn length(self) -> u32
        ensures { result ≡ length_of self }
    {
        self.end.saturating_sub(self.start)
    }

    // Where both hold. It is improper where they never do at once.
    pub fn meeting(self, other: Interval) -> Interval
        ensures { result ≡ meeting_of self other }
    {
        Interval {
            start: self.start.max(other.start),
            end: self.end.min(other.end),
        }
    }
}

// As [start,end), with the end left out.
impl fmt::Display for Interval {
    fn fmt<W: fmt::Write>(&self, f: &mut fmt::Formatter<W>) -> fmt::Result {
        write!(f, "[{},{})", self.start, self.end)
    }
}
