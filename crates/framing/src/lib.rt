// What a window shows of a feed, of which so many bytes may still be read: whether it tells, and the record that stands first in it.
#![tactic(auto)]

ghost use Rattle.std.specs.Prelude.{◌≡◌};
ghost use Rattle.feed.specs.Reading.{reading_seen, reading};
ghost use Rattle.framing.specs.Shown.{shown, tells};

use feed::{Found, LONGEST_RECORD, Misread, Record};

// What a step came to.
#[derive(Clone, Copy, Debug, PartialEq, Eq)]
pub enum Went {
    // The window shows too little to tell: a record may go on behind it.
    More,
    // A record was accepted: so many bytes of the window are used, and of the buffer filled.
    On { used: usize, filled: usize },
    // The last line is out: so many bytes of the buffer are filled.
    Ended { filled: usize },
}

// Does a window show all that can matter to the record that stands first in it?
#[tactic(auto, using(feed::proofs::Locality::long_shows), unfolding(crate::specs::Shown::tells))]
pub fn tells(left: usize, window: &[u8], ended: bool) -> bool
    ensures { result ≡ tells left window.now ended }
{
    // So many bytes show any record: its length need not be looked at.
    ended || left <= window.len() || LONGEST_RECORD <= window.len() || feed::shows(window)
}

// Reads the record that stands first in what a window shows.
pub fn read_shown(left: usize, window: &[u8]) -> Result<Option<Found<Record>>, Misread>
    ensures { reading_seen result ≡ reading (shown left window.now) 0 }
{
    let shown = &window[..left.min(window.len())];
    feed::read(shown, 0)
}
