// Entries of the two journals, the rule that pairs them, and the pairs that they make.
#![tactic(auto)]

ghost use Rattle.std.specs.Prelude.{◌≡◌, ◌<◌};
ghost use Rattle.pairing.specs.Pair.{pairs, partner_of, pair_of, comes_before};
ghost use Rattle.pairing.specs.Rule.{whole_turn, distance, allows, fits};
ghost use Rattle.pairing.specs.Side.{pair_from};

use interval::Interval;
use std::fmt;

// What a journal says from the start of the span up to its end.
#[derive(Clone, Copy, Debug, Default, PartialEq, Eq)]
pub struct Entry {
    pub span: Interval,
    pub key: u32,
    pub value: u32,
}

// An accepted entry, with how many its journal accepted before it.
#[derive(Clone, Copy, Debug, Default, PartialEq, Eq)]
pub struct Numbered {
    pub entry: Entry,
    pub ordinal: u32,
}

// Of which journal.
#[derive(Clone, Copy, Debug, PartialEq, Eq)]
pub enum Side {
    A,
    B,
}

// Which keys pair.
#[derive(Clone, Copy, Debug, PartialEq, Eq)]
pub enum Rule {
    Equal,
    // Angles at most this far apart, either way round.
    Near(u32),
    Every,
}

// What a pair carries of one of its entries.
#[derive(Clone, Copy, Debug, Default, PartialEq, Eq)]
pub struct Partner {
    pub ordinal: u32,
    pub key: u32,
    pub value: u32,
}

// Where an A entry and a B entry meet.
#[derive(Clone, Copy, Debug, Default, PartialEq, Eq)]
pub struct Pair {
    pub meeting: Interval,
    pub a: Partner,
    pub b: Partner,
}

// The distance of two angles: the smaller of the two ways round.
#[tactic(auto, unfolding(crate::specs::Rule::difference, crate::specs::Rule::distance))]
fn apart(key: u32, other: u32) -> u32
    requires { (key < whole_turn) × (other < whole_turn) }
    ensures { result ≡ distance key other }
{
    let one_way = key.abs_diff(other);
    one_way.min(Rule::WHOLE_TURN - one_way)
}

// Is the distance of two keys at most the width? Keys are angles where the larger of them is; any others are not near, whatever the width.
#[tactic(auto, using(crate::proofs::Circle::past_turn), unfolding(crate::specs::Rule::allows, crate::specs::Rule::fits))]
fn near(width: u32, key: u32, other: u32) -> bool
    ensures { result ≡ fits (Rule.Near width) key other }
{
    key.max(other) < Rule::WHOLE_TURN && apart(key, other) <= width
}

#[tactic(auto, unfolding(crate::specs::Rule::allows, crate::specs::Rule::fits, crate::specs::Pair::pairs))]
impl Rule {
    // A near key is an angle in hundredths of a degree: so many are a whole turn.
    pub const WHOLE_TURN: u32 = 36_000;

    // Does the rule allow a key? Near allows angles, the others any key.
    pub fn allows(self, key: u32) -> bool
        ensures { result ≡ allows self key }
    {
        match self {
            Rule::Equal => true,
            Rule::Every => true,
            Rule::Near(_) => key < Rule::WHOLE_TURN,
        }
    }

    // Does the rule hold for the keys of an A and a B entry?
    pub fn fits(self, a_key: u32, b_key: u32) -> bool
        ensures { result ≡ fits self a_key b_key }
    {
        match self {
            Rule::Equal => a_key == b_key,
            Rule::Every => true,
            Rule::Near(width) => near(width, a_key, b_key),
        }
    }

    // Does an A entry pair with a B entry? The keys tell most couples apart, so they are asked before the meeting.
    pub fn pairs(self, a: Entry, b: Entry) -> bool
        ensures { result ≡ pairs self a b }
    {
        a.span.proper()
            && self.fits(a.key, b.key)
            && a.span.meeting(b.span).proper()
            && b.span.proper()
    }
}

#[tactic(auto, unfolding(crate::specs::Pair::partner_of))]
impl Numbered {
    // What a pair carries of it.
    pub fn partner(self) -> Partner
        ensures { result ≡ partner_of self }
    {
        Partner {
            ordinal: self.ordinal,
            key: self.entry.key,
            value: self.entry.value,
        }
    }
}

#[tactic(auto, unfolding(crate::specs::Pair::pair_of, crate::specs::Pair::comes_before))]
impl Pair {
    // The pair of an A entry and a B entry.
    pub fn of(a: Numbered, b: Numbered) -> Pair
        ensures { result ≡ pair_of a b }
    {
        Pair {
            meeting: a.entry.span.meeting(b.entry.span),
            a: a.partner(),
            b: b.partner(),
        }
    }

    // What the plain list is in ascending order of: start, then A ordinal, then B ordinal.
    fn rank(self) -> (u32, u32, u32)
        ensures { result ≡ (self.meeting.start, self.a.ordinal, self.b.ordinal) }
    {
        (self.meeting.start, self.a.ordinal, self.b.ordinal)
    }

    // Does it come before the other in the plain list's order?
    pub fn comes_before(self, other: Pair) -> bool
        ensures { result ≡ comes_before self other }
    {
        self.rank() < other.rank()
    }
}

impl Side {
    // The pair of an entry of this side and one of the other.
    pub fn pair(self, x: Numbered, other: Numbered) -> Pair
        ensures { result ≡ pair_from self x other }
    {
        match self {
            Side::A => Pair::of(x, other),
            Side::B => Pair::of(other, x),
        }
    }
}

// As its meeting and the ordinals of A and B.
impl fmt::Display for Pair {
    fn fmt<W: fmt::Write>(&self, f: &mut fmt::Formatter<W>) -> fmt::Result {
        write!(f, "{} {}-{}", self.meeting, self.a.ordinal, self.b.ordinal)
    }
}
