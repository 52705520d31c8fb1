// A feed joined record by record, through whatever window shows it: what joinfeed does at each record, and what it puts out.
#![tactic(auto)]

ghost use Rattle.std.specs.Prelude.{◌≡◌, ℕ, true, ◌+◌, ◌-◌, ◌*◌, ◌≤◌, ◌<◌, length};
ghost use mathlib.Core.List.{[], ◌∷◌, ◌++◌};
ghost use Rattle.lists.specs.Judge.{chain};
ghost use Rattle.lists.specs.Put.{put};
ghost use Rattle.refusals.specs.Table.{number_of};
ghost use Rattle.pairing.specs.Pair.{comes_before};
ghost use Rattle.pairing.specs.Numbers.{pair_numbers};
ghost use Rattle.journal.specs.Answer.{answer_of};
ghost use Rattle.queue.specs.Queue as the_queue;
ghost use Rattle.join.specs.State.{Sound};
ghost use Rattle.join.specs.Calls.{outcome};
ghost use Rattle.feed.specs.Record.{stream_known};
ghost use Rattle.feed.specs.declared.Record.{Record};
ghost use Rattle.feed.specs.Reading.{Found as record_found, reading_seen};
ghost use Rattle.framing.specs.Step.{effect_of, done, stepped, used_of};
ghost use Rattle.lines.specs.Line.{line};
ghost use Rattle.steps.specs.Printed.{begun, refused_line, end_line, pair_lines, heard, taken, joinfeed};
ghost use Rattle.steps.specs.Step.{effect_with, Kept, Few, line_room, room};

use feed::{Found, Misread, Record};
use framing::{Went, read_shown, tells};
use join::{Join, side_of};
use lines::FIELD;
use pairing::{Pair, Rule};
use queue::Queue;
use refusals::Refusal;

// How many bytes of a feed are read.
pub const READ_LIMIT: u32 = 4294967295;

// A pair has so many numbers.
const NUMBERS: usize = 8;

// How many bytes the line of a pair may have.
const LINE: usize = NUMBERS * FIELD;

// How many bytes a step may put out: the lines of all pairs that may wait.
pub const ROOM: usize = Queue::PLACES * LINE;

// Where a run stands: its join, how many records were accepted, and how many pair lines put out.
#[derive(Clone, Copy)]
pub struct Progress {
    pub state: Join,
    pub records: u32,
    pub pairs: u64,
}

// The join hears a record. A note rides along and affects nothing.
fn hear(join: &mut Join, record: Record) -> Result<(), Refusal>
    requires { (Sound join.old) × (stream_known «record» ≡ true) }
    ensures { outcome (answer_of result) join.new ≡ heard join.old «record» }
{
    match record {
        Record::Entry(stream, e) => join.entry_on(side_of(stream), e),
        Record::Mark(stream, time) => join.mark_on(side_of(stream), time),
        Record::Close(stream) => join.close_on(side_of(stream)),
        Record::Note(_) => Ok(()),
    }
}

// The numbers of a pair, as wide as a line takes them.
fn numbers_in(p: Pair) -> [u64; NUMBERS]
    ensures { (result ≡ pair_numbers p) × (length (line (pair_numbers p)) ≤ line_room) }
{
    [
        u64::from(p.meeting.start),
        u64::from(p.meeting.end),
        u64::from(p.a.ordinal),
        u64::from(p.b.ordinal),
        u64::from(p.a.key),
        u64::from(p.b.key),
        u64::from(p.a.value),
        u64::from(p.b.value),
    ]
}

// The lines of some pairs, from the buffer's first byte on; answers how many bytes they have.
fn put_pairs(out: &mut [u8], pairs: &[Pair]) -> usize
    requires { line_room * length pairs.now ≤ length out.old }
    ensures value { result ≡ length (pair_lines pairs.now) }
    ensures out_after { out.new ≡ put 0 (pair_lines pairs.now) out.old }
{
    let mut at = 0;
    for p in pairs {
        at = lines::put_line(out, at, &numbers_in(*p));
    }
    at
}

// A last line, from the buffer's first byte on: a word and numbers. Answers how many bytes it has.
fn put_last(out: &mut [u8], word: &[u8], numbers: &[u64]) -> usize
    requires { (0 < length numbers.now) × (length word.now + length (line numbers.now) ≤ length out.old) }
    ensures value { result ≡ length (word.now ++ line numbers.now) }
    ensures out_after { out.new ≡ put 0 (word.now ++ line numbers.now) out.old }
{
    lines::put_text(out, 0, word);
    lines::put_line(out, word.len(), numbers)
}

impl Progress {
    // The start of a run, by a rule.
    pub fn begun(rule: Rule) -> Progress
        ensures { result ≡ begun rule }
    {
        Progress {
            state: Join::fresh(rule),
            records: 0,
            pairs: 0,
        }
    }

    // The last line of a feed that is refused.
    fn put_refused(&self, out: &mut [u8], refusal: Refusal) -> usize
        requires { room ≤ length out.old }
        ensures value { result ≡ length (refused_line (number_of refusal) self.now) }
        ensures out_after { out.new ≡ put 0 (refused_line (number_of refusal) self.now) out.old }
    {
        let counts = [u64::from(refusal.number()), u64::from(self.records)];
        put_last(out, b"refused ", &counts)
    }

    // The last line of a feed that ends.
    fn put_end(&self, out: &mut [u8]) -> usize
        requires { (room ≤ length out.old) × (Few self.now) }
        ensures value { result ≡ length (end_line self.now) }
        ensures out_after { out.new ≡ put 0 (end_line self.now) out.old }
    {
        let counts = [u64::from(self.records), self.pairs];
        if self.state.both_closed() {
            return put_last(out, b"done ", &counts);
        }
        put_last(out, b"open ", &counts)
    }

    // The ready pairs put out, and dropped at once; the run goes on at the next record.
    fn hand_out(&mut self, next: usize, out: &mut [u8]) -> Went
        requires { (the_queue.Holds self.old.state.queue) × (chain comes_before (the_queue.waiting self.old.state.queue) ≡ true) × (room ≤ length out.old) × (Few self.old) }
        ensures { effect_with result self.new out.new ≡ effect_of self.old out.old next (taken self.old self.old.state) }
    {
        let ready = self.state.ready_on();
        let filled = put_pairs(out, &self.state.queue.places[..ready]);
        self.state.drop_on(ready);
        self.records += 1;
        self.pairs += ready as u64;
        Went::On { used: next, filled }
    }

    // The last step, at a reading that finds no record: it is refused, or the feed ends.
    fn stop(&self, reading: Result<Option<Found<Record>>, Misread>, out: &mut [u8]) -> Went
        requires { (room ≤ length out.old) × (Few self.now) × ((found : Record) (next : ℕ) → reading_seen reading ≡ record_found found next → ⊥) }
        ensures { effect_with result self.now out.new ≡ done joinfeed self.now out.old (reading_seen reading) }
    {
        let Err(misread) = reading else {
            let filled = self.put_end(out);
            return Went::Ended { filled };
        };
        let filled = self.put_refused(out, misread.refusal);
        Went::Ended { filled }
    }

    // One step: the record that stands first in the window, if the window shows all that can matter to it. A refused reading and the feed's end leave early. The join hears the record, and what is then ready is put out.
    pub fn step(&mut self, left: usize, window: &[u8], ended: bool, out: &mut [u8]) -> Went
        requires { (Kept self.old left) × (room ≤ length out.old) }
        ensures out_after { effect_with result self.new out.new ≡ stepped joinfeed self.old left window.now ended out.old }
        ensures kept { Kept self.new (left - used_of result) }
    {
        if !tells(left, window, ended) {
            return Went::More;
        }
        let reading = read_shown(left, window);
        let Ok(shown) = reading else {
            return self.stop(reading, out);
        };
        let Some(found) = shown else {
            return self.stop(reading, out);
        };
        let Err(refusal) = hear(&mut self.state, found.found) else {
            return self.hand_out(found.next, out);
        };
        let filled = self.put_refused(out, refusal);
        Went::Ended { filled }
    }
}
