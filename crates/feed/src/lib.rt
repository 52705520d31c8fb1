// Feed records: a feed is bytes, one record after another. The table of kinds, and reading the record at a place.
#![tactic(auto)]

ghost use Rattle.std.specs.Prelude.{◌≡◌, ◌==◌, find, ◌+◌, ◌≤◌, length, take, drop};
ghost use Rattle.feed.specs.Number.{value};
ghost use Rattle.feed.specs.Kind.{entry, mark, close, pair, lengths_seen, lengths_of, fields_in};
ghost use Rattle.pairing.specs.Numbers.{pair_in};
ghost use Rattle.feed.specs.Record.{entry_from, mark_from, close_from, record_in, stream_known};
ghost use Rattle.feed.specs.Text.{text_at, IsStretch};
ghost use Rattle.feed.specs.Head.{whole_head, head_seen};
ghost use Rattle.feed.specs.Reading.{outside, shows, head_of, reading_seen, reading, pair_reading};

use interval::Interval;
use pairing::{Entry, Pair, Partner};
use refusals::Refusal;
use std::error::Error;
use std::fmt;

// A row of the table of kinds: the number of a kind, and the shortest and longest length of its records, which counts all that follows it.
#[derive(Clone, Copy, Debug, PartialEq, Eq)]
pub struct Kind {
    pub number: u16,
    pub shortest: u16,
    pub longest: u16,
}

pub const ENTRY: Kind = Kind {
    number: 1,
    shortest: 20,
    longest: 20,
};

pub const MARK: Kind = Kind {
    number: 2,
    shortest: 8,
    longest: 8,
};

pub const CLOSE: Kind = Kind {
    number: 3,
    shortest: 4,
    longest: 4,
};

pub const NOTE: Kind = Kind {
    number: 4,
    shortest: 2,
    longest: 66,
};

pub const PAIR: Kind = Kind {
    number: 257,
    shortest: 34,
    longest: 34,
};

// The longest record with its two length bytes.
pub const LONGEST_RECORD: usize = 2 + NOTE.longest as usize;

// A record of an input feed. A number before another is its stream, which may be any, as what is neither 0 nor 1 is refused with 1.
#[derive(Clone, Copy, Debug, PartialEq, Eq)]
pub enum Record {
    Entry(u16, Entry),
    Mark(u16, u32),
    Close(u16),
    // As many bytes of text, which stand at the record's end.
    Note(usize),
}

// What was found at a place: a record of an input feed, or a pair of an output feed, and the place of the next.
#[derive(Clone, Copy, Debug, PartialEq, Eq)]
pub struct Found<R> {
    pub found: R,
    pub next: usize,
}

// Why a reading is refused, and its place, the record's first byte.
#[derive(Clone, Copy, Debug, PartialEq, Eq)]
pub struct Misread {
    pub refusal: Refusal,
    pub place: usize,
}

impl fmt::Display for Misread {
    fn fmt<W: fmt::Write>(&self, f: &mut fmt::Formatter<W>) -> fmt::Result {
        write!(f, "refused {} at byte {}", self.refusal, self.place)
    }
}

impl Error for Misread {}

// The two kinds of feed, which know different kinds of record.
#[derive(Clone, Copy)]
enum Feed {
    Input,
    Output,
}

// The length and the kind of a whole record.
#[derive(Clone, Copy)]
struct Head {
    kind: u16,
    size: u16,
}

// The number in two bytes from a place on, the least byte first. `get32` is beside it, as `from_le_bytes` is of each type and of no trait.
fn get16(s: &[u8], at: usize) -> u16
    requires { at + 2 ≤ length s.now }
    ensures { result ≡ value (take 2 (drop at s.now)) }
{
    u16::from_le_bytes([s[at], s[at + 1]])
}

// The number in four bytes from a place on.
fn get32(s: &[u8], at: usize) -> u32
    requires { at + 4 ≤ length s.now }
    ensures { result ≡ value (take 4 (drop at s.now)) }
{
    u32::from_le_bytes([s[at], s[at + 1], s[at + 2], s[at + 3]])
}

// Is a length below the shortest or above the longest?
#[tactic(auto, unfolding(crate::specs::Reading::outside))]
fn outside(size: u16, shortest: u16, longest: u16) -> bool
    ensures { result ≡ outside shortest longest size }
{
    size < shortest || longest < size
}

// Do some bytes show the record that stands first in them, or a length that no record has? What follows them does not matter then.
#[tactic(auto, unfolding(crate::specs::Reading::shows, crate::specs::Reading::outside))]
pub fn shows(s: &[u8]) -> bool
    ensures { result ≡ shows s.now }
{
    if s.len() < 2 {
        return false;
    }
    let size = get16(s, 0);
    outside(size, 2, 66) || usize::from(size) <= s.len() - 2
}

// The row of a kind among some.
fn row_among(rows: &[Kind], number: u16) -> Option<Kind>
    ensures { result ≡ find (λ row. row.number == number) rows.now }
{
    rows.iter().copied().find(|row| row.number == number)
}

impl Feed {
    // The row of the table of kinds, if the feed knows the kind.
    #[tactic(auto, unfolding(crate::specs::Kind::lengths_of))]
    fn row(self, number: u16) -> Option<Kind>
        ensures { lengths_seen result ≡ lengths_of self number }
    {
        match self {
            Feed::Input => row_among(&[ENTRY, MARK, CLOSE, NOTE], number),
            Feed::Output => row_among(&[PAIR], number),
        }
    }

    // The checks of what is left of a feed, in their order: those that both feeds share, then the kind, and the length for the kind.
    #[tactic(auto, unfolding(crate::specs::Reading::head_of, crate::specs::Reading::head_unless, crate::specs::Reading::head_checks, crate::specs::Reading::kind_checks, crate::specs::Reading::outside))]
    fn head(self, s: &[u8]) -> Result<Option<Head>, Refusal>
        ensures { head_seen result ≡ head_of self s.now }
    {
        if s.is_empty() {
            return Ok(None);
        }
        if s.len() < 2 {
            return Err(Refusal::Cut);
        }
        let size = get16(s, 0);
        if outside(size, 2, 66) {
            return Err(Refusal::Length);
        }
        if s.len() - 2 < usize::from(size) {
            return Err(Refusal::Cut);
        }
        let kind = get16(s, 2);
        let row = self.row(kind).ok_or(Refusal::Kind)?;
        if outside(size, row.shortest, row.longest) {
            return Err(Refusal::Length);
        }
        Ok(Some(Head { kind, size }))
    }
}

impl Record {
    // Is its stream 0 or 1? A note has none. An arm for each kind: with one for the three that have a stream, a caller asks for the kind once more, and a mark is read in a fifth more instructions.
    #[tactic(auto, unfolding(crate::specs::Record::stream_known))]
    fn stream_known(self) -> bool
        ensures { result ≡ stream_known self }
    {
        match self {
            Record::Entry(stream, _) => stream < 2,
            Record::Mark(stream, _) => stream < 2,
            Record::Close(stream) => stream < 2,
            Record::Note(_) => true,
        }
    }
}

// The entry that stands first in s.
fn entry_in(s: &[u8]) -> Record
    requires { 2 + entry.longest ≤ length s.now }
    ensures { result ≡ entry_from (fields_in entry s.now) }
{
    let stream = get16(s, 4);
    let span = Interval {
        start: get32(s, 6),
        end: get32(s, 10),
    };
    let key = get32(s, 14);
    let value = get32(s, 18);
    Record::Entry(stream, Entry { span, key, value })
}

// The mark that stands first in s.
fn mark_in(s: &[u8]) -> Record
    requires { 2 + mark.longest ≤ length s.now }
    ensures { result ≡ mark_from (fields_in mark s.now) }
{
    Record::Mark(get16(s, 4), get32(s, 6))
}

// The close that stands first in s.
fn close_in(s: &[u8]) -> Record
    requires { 2 + close.longest ≤ length s.now }
    ensures { result ≡ close_from (fields_in close s.now) }
{
    Record::Close(get16(s, 4))
}

// The pair that stands first in s.
#[tactic(auto, unfolding(pairing::specs::Numbers::pair_in))]
fn pair_in(s: &[u8]) -> Pair
    requires { 2 + pair.longest ≤ length s.now }
    ensures { result ≡ pair_in (fields_in pair s.now) }
{
    let meeting = Interval {
        start: get32(s, 4),
        end: get32(s, 8),
    };
    let a = Partner {
        ordinal: get32(s, 12),
        key: get32(s, 20),
        value: get32(s, 28),
    };
    let b = Partner {
        ordinal: get32(s, 16),
        key: get32(s, 24),
        value: get32(s, 32),
    };
    Pair { meeting, a, b }
}

// The record that stands first in s, after its head was found whole.
#[tactic(auto, using(crate::proofs::Heads::entry_enough, crate::proofs::Heads::mark_enough, crate::proofs::Heads::close_enough, crate::proofs::Heads::two_enough), unfolding(crate::specs::Record::record_in))]
fn record_in(head: Head, s: &[u8]) -> Record
    requires { head_of Feed.Input s.now ≡ whole_head head }
    ensures { result ≡ record_in head.kind head.size s.now }
{
    if head.kind == ENTRY.number {
        entry_in(s)
    } else if head.kind == MARK.number {
        mark_in(s)
    } else if head.kind == CLOSE.number {
        close_in(s)
    } else {
        Record::Note(usize::from(head.size) - 2)
    }
}

// Reads the record at a place of an input feed.
#[tactic(auto, using(crate::proofs::Readings::reading_past), unfolding(crate::specs::Reading::reading, crate::specs::Reading::reading_from, crate::specs::Reading::found_at))]
pub fn read(s: &[u8], at: usize) -> Result<Option<Found<Record>>, Misread>
    ensures { reading_seen result ≡ reading s.now at }
{
    let Some(rest) = s.get(at..) else {
        return Ok(None);
    };
    let misread = |refusal| Misread { refusal, place: at };
    let Some(head) = Feed::Input.head(rest).map_err(misread)? else {
        return Ok(None);
    };
    let found = record_in(head, rest);
    if !found.stream_known() {
        return Err(misread(Refusal::Stream));
    }
    let next = at + 2 + usize::from(head.size);
    Ok(Some(Found { found, next }))
}

// Reads the pair at a place of an output feed.
#[tactic(auto, using(crate::proofs::Readings::pair_past, crate::proofs::Heads::pair_enough), unfolding(crate::specs::Reading::pair_reading, crate::specs::Reading::pair_reading_from))]
pub fn read_pair(s: &[u8], at: usize) -> Result<Option<Found<Pair>>, Misread>
    ensures { reading_seen result ≡ pair_reading s.now at }
{
    let Some(rest) = s.get(at..) else {
        return Ok(None);
    };
    let misread = |refusal| Misread { refusal, place: at };
    let Some(head) = Feed::Output.head(rest).map_err(misread)? else {
        return Ok(None);
    };
    let next = at + 2 + usize::from(head.size);
    Ok(Some(Found {
        found: pair_in(rest),
        next,
    }))
}

// The text of the note at a place of an input feed, as the very stretch of the feed that it occupies; an empty stretch for anything but a note.
#[tactic(auto, using(crate::proofs::Readings::note_ends), unfolding(crate::specs::Text::text_at))]
pub fn text(s: &[u8], at: usize) -> &[u8]
    ensures { IsStretch s.entry (text_at s.now at) result }
{
    let Ok(Some(read)) = read(s, at) else {
        return &s[..0];
    };
    let Record::Note(size) = read.found else {
        return &s[..0];
    };
    let from = at + 4;
    &s[from..from + size]
}
