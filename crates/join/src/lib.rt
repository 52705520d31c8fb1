// The join: two journals, their areas and the queue, with one stated answer to every call.
#![tactic(auto)]

ghost use Rattle.std.specs.Prelude.{◌≡◌, true, ◌≤◌, length, take, filter, IfOk, IfErr, Ok};
ghost use Rattle.lists.specs.Judge.{chain};
ghost use Rattle.pairing.specs.Pair.{comes_before};
ghost use Rattle.refusals.specs.Table.{number_of};
ghost use Rattle.journal.specs.Answer.{Accepted, Refused, answer_of, first_of};
ghost use Rattle.area.specs.Area as the_area;
ghost use Rattle.queue.specs.declared.Queue.{Queue};
ghost use Rattle.queue.specs.Queue as the_queue;
ghost use Rattle.join.specs.State.{Sound, sound, fresh_state};
ghost use Rattle.join.specs.Calls.{outcome, side_of, both_closed, judge_rows, took_of, entry_on, mark_on, close_on, take_on, entry_call, mark_call, close_call, take_call, with_queue, without};

use area::Area;
use halves::Half;
use journal::Journal;
use pairing::{Entry, Pair, Rule, Side};
use queue::{Queue, is_ready};
use refusals::Refusal;

// Its rule, each journal with its area, and the queue.
#[derive(Clone, Copy)]
pub struct Join {
    pub rule: Rule,
    pub a: Half,
    pub b: Half,
    pub queue: Queue,
}

// What a take that is not refused answers.
#[derive(Clone, Copy, Debug, PartialEq, Eq)]
pub enum Taken {
    Handed(Pair),
    // Nothing is ready yet.
    Waiting,
    // Both journals are closed and nothing waits.
    Finished,
}

// Journal A is stream 0, B is stream 1.
pub fn side_of(stream: u16) -> Side
    ensures { result ≡ side_of stream }
{
    if stream == 0 { Side::A } else { Side::B }
}

impl Join {
    // How many entries an area may hold.
    pub const HELD: usize = Area::MOST;
    // How many pairs may wait.
    pub const WAITING: usize = Queue::PLACES;
    // How many entries a journal may accept.
    pub const ENTRIES: u32 = Journal::ENTRIES;

    #[tactic(auto, unfolding(crate::specs::State::fresh_state, crate::specs::State::state_of))]
    pub fn fresh(rule: Rule) -> Join
        ensures { result ≡ fresh_state rule }
    {
        let half = Half {
            journal: Journal::fresh(),
            area: Area::fresh(),
        };
        Join {
            rule,
            a: half,
            b: half,
            queue: Queue::fresh(),
        }
    }

    // Are both journals closed?
    pub fn both_closed(&self) -> bool
        ensures { result ≡ both_closed self.now }
    {
        self.a.journal.gate.closed() && self.b.journal.gate.closed()
    }

    // Is the state sound?
    #[tactic(auto, using(crate::proofs::Judging::too_many_a, crate::proofs::Judging::too_many_b))]
    pub fn sound(&self) -> bool
        ensures value { result ≡ sound self.now }
        ensures sound { result ≡ true → Sound self.now }
    {
        let a = self.a.journal;
        let b = self.b.journal;
        a.accepted <= Join::ENTRIES
            && (b.accepted <= Join::ENTRIES
                && (self.a.area.sound(self.rule, a, b.gate)
                    && (self.b.area.sound(self.rule, b, a.gate)
                        && self.queue.sound(a.accepted, b.accepted))))
    }
}

// The calls after judging: for a program that starts from a fresh join and keeps it sound, and for the public calls below. Each has an arm for each side, as a half is called beside the other one.
impl Join {
    pub fn entry_on(&mut self, side: Side, e: Entry) -> Result<(), Refusal>
        requires { Sound self.old }
        ensures { outcome (answer_of result) self.new ≡ entry_on self.old side e }
    {
        match side {
            Side::A => self
                .a
                .enter(&mut self.b, &mut self.queue, self.rule, Side::A, e),
            Side::B => self
                .b
                .enter(&mut self.a, &mut self.queue, self.rule, Side::B, e),
        }
    }

    pub fn mark_on(&mut self, side: Side, time: u32) -> Result<(), Refusal>
        requires { (the_area.Holds self.old.a.area) × (the_area.Holds self.old.b.area) }
        ensures answer { (queue : Queue) → the_queue.Holds queue → outcome (answer_of result) (with_queue queue self.new) ≡ mark_on (with_queue queue self.old) side time }
        ensures queue { self.new.queue ≡ self.old.queue }
    {
        match side {
            Side::A => self.a.mark(&mut self.b, time),
            Side::B => self.b.mark(&mut self.a, time),
        }
    }

    pub fn close_on(&mut self, side: Side) -> Result<(), Refusal>
        requires { (the_area.Holds self.old.a.area) × (the_area.Holds self.old.b.area) }
        ensures answer { (queue : Queue) → the_queue.Holds queue → outcome (answer_of result) (with_queue queue self.new) ≡ close_on (with_queue queue self.old) side }
        ensures queue { self.new.queue ≡ self.old.queue }
    {
        match side {
            Side::A => self.a.close(&mut self.b),
            Side::B => self.b.close(&mut self.a),
        }
    }

    pub fn take_on(&mut self) -> Taken
        requires { the_queue.Holds self.old.queue }
        ensures { outcome (took_of (Ok result)) self.new ≡ take_on self.old }
    {
        if self.queue.count == 0 {
            return if self.both_closed() {
                Taken::Finished
            } else {
                Taken::Waiting
            };
        }
        let p = self.queue.first();
        if !is_ready(p, self.a.journal.gate, self.b.journal.gate) {
            return Taken::Waiting;
        }
        self.drop_on(1);
        Taken::Handed(p)
    }

    // How many waiting pairs are ready. They are the first ones.
    pub fn ready_on(&self) -> usize
        requires { (the_queue.Holds self.now.queue) × (chain comes_before (the_queue.waiting self.now.queue) ≡ true) }
        ensures value { result ≡ length (filter (the_queue.ready self.now.a.journal.gate self.now.b.journal.gate) (the_queue.waiting self.now.queue)) }
        ensures first { take result (the_queue.waiting self.now.queue) ≡ filter (the_queue.ready self.now.a.journal.gate self.now.b.journal.gate) (the_queue.waiting self.now.queue) }
    {
        self.queue.ready(self.a.journal.gate, self.b.journal.gate)
    }

    // The first k waiting pairs dropped at once: k takes, where they are ready.
    #[tactic(auto, unfolding(crate::specs::Calls::without))]
    pub fn drop_on(&mut self, k: usize)
        requires { (k ≤ self.old.queue.count) × (the_queue.Holds self.old.queue) }
        ensures { self.new ≡ without k self.old }
    {
        self.queue.drop_first(k);
    }
}

// The calls on a join, each of which judges the state first.
impl Join {
    // Whose call it is: the state is judged, then the stream.
    fn judged(&self, stream: u16) -> Result<Side, Refusal>
        ensures ok { IfOk result (λ side. (first_of (judge_rows self.now stream) ≡ Accepted) × (side ≡ side_of stream) × Sound self.now) }
        ensures err { IfErr result (λ refusal. first_of (judge_rows self.now stream) ≡ Refused (number_of refusal)) }
    {
        if !self.sound() {
            return Err(Refusal::Unsound);
        }
        if 1 < stream {
            return Err(Refusal::Stream);
        }
        Ok(side_of(stream))
    }

    pub fn entry(&mut self, stream: u16, e: Entry) -> Result<(), Refusal>
        ensures { outcome (answer_of result) self.new ≡ entry_call self.old stream e }
    {
        let side = self.judged(stream)?;
        self.entry_on(side, e)
    }

    pub fn mark(&mut self, stream: u16, time: u32) -> Result<(), Refusal>
        ensures { outcome (answer_of result) self.new ≡ mark_call self.old stream time }
    {
        let side = self.judged(stream)?;
        self.mark_on(side, time)
    }

    pub fn close(&mut self, stream: u16) -> Result<(), Refusal>
        ensures { outcome (answer_of result) self.new ≡ close_call self.old stream }
    {
        let side = self.judged(stream)?;
        self.close_on(side)
    }

    pub fn take(&mut self) -> Result<Taken, Refusal>
        ensures { outcome (took_of result) self.new ≡ take_call self.old }
    {
        if self.sound() {
            Ok(self.take_on())
        } else {
            Err(Refusal::Unsound)
        }
    }
}
