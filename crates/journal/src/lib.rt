// A journal: open with its clock, or closed, beside its accepted count; and what a clock wants, releases and refuses.
#![tactic(auto)]

ghost use Rattle.std.specs.Prelude.{◌≡◌, ◌<◌};
ghost use Rattle.journal.specs.Answer.{answer_of, first_of};
ghost use Rattle.journal.specs.Journal.{entries, wanted, below, not_past, is_closed, is_behind, fresh_journal, moved, entered, own_rows, marked, marked_from};

use pairing::Entry;
use refusals::Refusal;

// Open, with the clock before which no later entry starts; or closed.
#[derive(Clone, Copy, Debug, PartialEq, Eq)]
pub enum Gate {
    Open(u32),
    Closed,
}

// One of the two journals. Its entries are kept elsewhere.
#[derive(Clone, Copy, Debug, PartialEq, Eq)]
pub struct Journal {
    pub gate: Gate,
    pub accepted: u32,
}

impl Gate {
    // Is an entry of the other journal wanted by this one?
    pub fn wants(self, e: Entry) -> bool
        ensures { result ≡ wanted self e }
    {
        match self {
            Gate::Open(clock) => clock < e.span.end,
            Gate::Closed => false,
        }
    }

    // Can no entry of this journal start at the instant any more?
    pub fn passed(self, t: u32) -> bool
        ensures { result ≡ below self t }
    {
        match self {
            Gate::Open(clock) => t < clock,
            Gate::Closed => true,
        }
    }

    // Can an entry of this journal have started at the instant?
    pub fn reached(self, t: u32) -> bool
        ensures { result ≡ not_past self t }
    {
        match self {
            Gate::Open(clock) => t <= clock,
            Gate::Closed => true,
        }
    }

    // Is the journal closed?
    pub fn closed(self) -> bool
        ensures { result ≡ is_closed self }
    {
        matches!(self, Gate::Closed)
    }

    // Is the time below the clock, so that a start or a mark there breaks a promise? Unlike `passed`, a closed journal has no clock to be below.
    pub fn behind(self, t: u32) -> bool
        ensures { result ≡ is_behind self t }
    {
        match self {
            Gate::Open(clock) => t < clock,
            Gate::Closed => false,
        }
    }
}

impl Journal {
    // How many entries a journal may accept.
    pub const ENTRIES: u32 = 1_000_000;

    pub fn fresh() -> Journal
        ensures { result ≡ fresh_journal }
    {
        Journal {
            gate: Gate::Open(0),
            accepted: 0,
        }
    }

    // The journal with its gate moved.
    pub fn to(self, gate: Gate) -> Journal
        ensures { result ≡ moved gate self }
    {
        Journal { gate, ..self }
    }

    // The journal with one more accepted entry.
    pub fn with(self, e: Entry) -> Journal
        requires { self.accepted < entries }
        ensures { result ≡ entered e self }
    {
        Journal {
            gate: Gate::Open(e.span.start),
            accepted: self.accepted + 1,
        }
    }

    // What the journal alone answers an entry: whether it is open, what the entry's times are, and how many it has accepted.
    #[tactic(auto, unfolding(crate::specs::Journal::own_rows))]
    pub fn own_answer(self, e: Entry) -> Result<(), Refusal>
        ensures { answer_of result ≡ first_of (own_rows self e) }
    {
        if self.gate.closed() {
            return Err(Refusal::Closed);
        }
        if !e.span.proper() {
            return Err(Refusal::Improper);
        }
        if self.gate.behind(e.span.start) {
            return Err(Refusal::Behind);
        }
        if Journal::ENTRIES <= self.accepted {
            return Err(Refusal::Spent);
        }
        Ok(())
    }

    // The journal after a mark: refused with 2 where the journal is closed, with 4 where the time is below its clock.
    pub fn mark(self, time: u32) -> Result<Journal, Refusal>
        ensures { marked_from self result ≡ marked time self }
    {
        if self.gate.closed() {
            return Err(Refusal::Closed);
        }
        if self.gate.behind(time) {
            return Err(Refusal::Behind);
        }
        Ok(self.to(Gate::Open(time)))
    }
}
