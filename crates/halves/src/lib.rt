// A join as one of its journals sees it: what refuses an entry for want of room, what an admitted entry and a moved gate leave.
#![tactic(auto)]

ghost use Rattle.std.specs.Prelude.{◌≡◌, true, [], ◌∷◌, ◌++◌, ◌+◌, ◌≤◌, ◌<◌, length};
ghost use Rattle.journal.specs.Answer.{Accepted, answer_of, first_of, unless_refused};
ghost use Rattle.journal.specs.Journal.{wanted, own_rows, mark_rows};
ghost use Rattle.area.specs.Area as the_area;
ghost use Rattle.queue.specs.Queue as the_queue;
ghost use Rattle.halves.specs.View.{Stand, seen, halves_with, halves_of};
ghost use Rattle.halves.specs.Calls.{formed, key_rows, room_for, room_rows, entry_rows, after_entry, moved_half, cleared_half, close_rows};

use area::Area;
use journal::{Gate, Journal};
use pairing::{Entry, Numbered, Rule, Side};
use queue::Queue;
use refusals::Refusal;

// A journal with its area.
#[derive(Clone, Copy)]
pub struct Half {
    pub journal: Journal,
    pub area: Area,
}

// What refuses an entry whatever is held: its journal alone, then a key that the rule does not allow.
#[tactic(auto, using(crate::proofs::Laws::refused_alone, crate::proofs::Laws::refused_key, crate::proofs::Laws::refused_never))]
fn first_answer(rule: Rule, journal: Journal, e: Entry) -> Result<(), Refusal>
    ensures { answer_of result ≡ first_of (own_rows journal e ++ key_rows rule e) }
{
    journal.own_answer(e)?;
    if !rule.allows(e.key) {
        return Err(Refusal::NoAngle);
    }
    Ok(())
}

// The entry held behind the others, if the other journal wants it.
fn hold_wanted(area: &mut Area, x: Numbered, other: Gate)
    requires { (the_area.Holds area.old) × (wanted other x.entry ≡ true → area.old.count < the_area.most) }
    ensures { area.new ≡ the_area.area_of (the_area.held area.old ++ the_area.wanted_by other (x ∷ [])) }
{
    if other.wants(x.entry) {
        area.hold(x);
    }
}

// Each call is one of the half's own journal, beside the other half and the queue.
impl Half {
    // What refuses an entry for want of room, where it forms so many new pairs.
    #[tactic(auto, using(crate::proofs::Room::area_full, crate::proofs::Room::queue_full, crate::proofs::Room::queue_full_unwanted, crate::proofs::Room::free, crate::proofs::Room::free_unwanted))]
    pub fn room_answer(
        &self,
        other: &Half,
        queue: &Queue,
        e: Entry,
        new: usize,
    ) -> Result<(), Refusal>
        requires { (queue.now.count ≤ the_queue.places) × (new ≤ the_area.places) }
        ensures { answer_of result ≡ first_of (room_for (wanted other.now.journal.gate e) self.now.area.count (queue.now.count + new)) }
    {
        if other.journal.gate.wants(e) && Area::MOST <= self.area.count {
            return Err(Refusal::AreaFull);
        }
        if Queue::PLACES < queue.count + new {
            return Err(Refusal::QueueFull);
        }
        Ok(())
    }

    // An entry that nothing refuses: paired, then held if wanted, the other area cleared by its start.
    pub fn admit(
        &mut self,
        other: &mut Half,
        queue: &mut Queue,
        rule: Rule,
        side: Side,
        e: Entry,
        new: usize,
    )
        requires stand { Stand (halves_with rule self.old other.old queue.old) }
        requires admitted { (first_of (own_rows self.old.journal e ++ key_rows rule e) ≡ Accepted) × (first_of (room_rows side (seen (halves_with rule self.old other.old queue.old)) e) ≡ Accepted) }
        requires counted { new ≡ length (formed side (seen (halves_with rule self.old other.old queue.old)) e) }
        ensures { halves_with rule self.new other.new queue.new ≡ halves_of (after_entry side (seen (halves_with rule self.old other.old queue.old)) e) }
    {
        let x = Numbered {
            entry: e,
            ordinal: self.journal.accepted,
        };
        queue.merge(&other.area, rule, side, x, new);
        other.area.clear(Gate::Open(e.span.start));
        hold_wanted(&mut self.area, x, other.journal.gate);
        self.journal = self.journal.with(e);
    }

    // An entry: refused whatever is held, refused for want of room, or admitted.
    pub fn enter(
        &mut self,
        other: &mut Half,
        queue: &mut Queue,
        rule: Rule,
        side: Side,
        e: Entry,
    ) -> Result<(), Refusal>
        requires { Stand (halves_with rule self.old other.old queue.old) }
        ensures answer { answer_of result ≡ first_of (entry_rows side (seen (halves_with rule self.old other.old queue.old)) e) }
        ensures left { halves_with rule self.new other.new queue.new ≡ unless_refused (answer_of result) (halves_of (after_entry side (seen (halves_with rule self.old other.old queue.old)) e)) (halves_with rule self.old other.old queue.old) }
    {
        first_answer(rule, self.journal, e)?;
        let new = other.area.partners(rule, e);
        self.room_answer(other, queue, e, new)?;
        self.admit(other, queue, rule, side, e, new);
        Ok(())
    }

    // The own gate moved, and the other area cleared by it.
    pub fn shift(&mut self, other: &mut Half, gate: Gate)
        requires { the_area.Holds other.old.area }
        ensures own { self.new ≡ moved_half gate self.old }
        ensures other { other.new ≡ cleared_half gate other.old }
    {
        other.area.clear(gate);
        self.journal = self.journal.to(gate);
    }

    // A mark: what its journal alone answers, and where that is accepted the gate moved.
    pub fn mark(&mut self, other: &mut Half, time: u32) -> Result<(), Refusal>
        requires { the_area.Holds other.old.area }
        ensures answer { answer_of result ≡ first_of (mark_rows time self.old.journal) }
        ensures own { self.new ≡ unless_refused (answer_of result) (moved_half (Gate.Open time) self.old) self.old }
        ensures other { other.new ≡ unless_refused (answer_of result) (cleared_half (Gate.Open time) other.old) other.old }
    {
        self.journal.mark(time)?;
        self.shift(other, Gate::Open(time));
        Ok(())
    }

    // A close: refused where the journal is closed.
    pub fn close(&mut self, other: &mut Half) -> Result<(), Refusal>
        requires { the_area.Holds other.old.area }
        ensures answer { answer_of result ≡ first_of (close_rows self.old.journal) }
        ensures own { self.new ≡ unless_refused (answer_of result) (moved_half Gate.Closed self.old) self.old }
        ensures other { other.new ≡ unless_refused (answer_of result) (cleared_half Gate.Closed other.old) other.old }
    {
        if self.journal.gate.closed() {
            return Err(Refusal::Closed);
        }
        self.shift(other, Gate::Closed);
        Ok(())
    }
}
