// The area of a journal: its held entries with their ordinals.
#![tactic(auto)]

ghost use Rattle.std.specs.Prelude.{◌≡◌, true, [], ◌∷◌, ◌++◌, ◌≤◌, ◌<◌, length, take, drop, get_or};
ghost use Rattle.std.specs.List.{list_all};
ghost use Rattle.std.proofs.lemmas.List.Filters.{FiltersInPlace};
ghost use Rattle.lists.specs.Judge.{chain};
ghost use Rattle.lists.specs.Tally.{last_place};
ghost use Rattle.pairing.specs.Pair.{pairs};
ghost use Rattle.journal.specs.Journal.{wanted};
ghost use Rattle.area.specs.Area.{places, held, no_entry, area_of, Holds, partners, wanted_by, sound_entry, follows, spare_entry, sound_area};

use journal::{Gate, Journal};
use pairing::{Entry, Numbered, Rule};

// The first `count` places hold the entries, in the order in which they came.
#[derive(Clone, Copy)]
pub struct Area {
    pub count: usize,
    pub places: [Numbered; Area::PLACES],
}

fn entry_sound(x: Numbered, rule: Rule, own: Journal, other: Gate) -> bool
    ensures { result ≡ sound_entry rule own other x }
{
    let gate = own.gate;
    x.entry.span.proper()
        && (other.wants(x.entry)
            && (x.ordinal < own.accepted
                && (gate.reached(x.entry.span.start) && rule.allows(x.entry.key))))
}

fn followed(x: Numbered, y: Numbered) -> bool
    ensures { result ≡ follows x y }
{
    x.ordinal < y.ordinal && x.entry.span.start <= y.entry.span.start
}

fn is_spare(x: Numbered) -> bool
    ensures { result ≡ spare_entry x }
{
    x == Numbered::default()
}

impl Area {
    // How many entries an area may hold.
    pub const MOST: usize = 64;
    // How many places it has: one for each.
    pub const PLACES: usize = Area::MOST;

    pub fn fresh() -> Area
        ensures { result ≡ area_of [] }
    {
        Area {
            count: 0,
            places: [Numbered::default(); Area::PLACES],
        }
    }

    fn held(&self) -> &[Numbered]
        requires { self.now.count ≤ places }
        ensures { result.now ≡ held self.now }
    {
        &self.places[..self.count]
    }

    fn spare(&self) -> &[Numbered]
        requires { self.now.count ≤ places }
        ensures { result.now ≡ drop self.now.count self.now.places }
    {
        &self.places[self.count..]
    }

    // One more entry, behind the others.
    #[tactic(auto, using(crate::proofs::Laws::held_more))]
    pub fn hold(&mut self, x: Numbered)
        requires { (Holds self.old) × (self.old.count < places) }
        ensures { self.new ≡ area_of (held self.old ++ (x ∷ [])) }
    {
        self.places[self.count] = x;
        self.count += 1;
    }

    // The wanted entries moved to the front, in order; answers how many there are.
    fn squeeze(&mut self, gate: Gate) -> usize
        requires { self.old.count ≤ places }
        ensures { (self.new.count ≡ self.old.count) × FiltersInPlace (λ x. wanted gate x.entry) self.old.places self.new.places result self.old.count }
    {
        let mut kept = 0;
        for i in 0..self.count {
            let wanted = gate.wants(self.places[i].entry);
            // By index, as a turn reads one place and writes another. Moved first and counted if wanted: what is not is written over by the next, or blanked at the end.
            self.places[kept] = self.places[i];
            if wanted {
                kept += 1;
            }
        }
        kept
    }

    // Only what the other journal's gate still wants.
    pub fn clear(&mut self, gate: Gate)
        requires { Holds self.old }
        ensures { self.new ≡ area_of (wanted_by gate (held self.old)) }
    {
        let kept = self.squeeze(gate);
        self.places[kept..self.count].fill(Numbered::default());
        self.count = kept;
    }

    // The held entry at a place.
    pub fn entry_at(&self, at: usize) -> Numbered
        requires { (at < self.now.count) × (self.now.count ≤ places) }
        ensures { result ≡ get_or (held self.now) at no_entry }
    {
        self.places[at]
    }

    // How many held entries pair with an entry of the other journal?
    pub fn partners(&self, rule: Rule, e: Entry) -> usize
        requires { self.now.count ≤ places }
        ensures { result ≡ length (partners rule e (held self.now)) }
    {
        // One pass with a count, as in `left_by`: the library's filter and count take half as long again where many pass.
        let mut found = 0;
        for x in self.held() {
            if rule.pairs(e, x.entry) {
                found += 1;
            }
        }
        found
    }

    // Where the last partner of an entry of the other journal stands, among those held below a place, if one of them is a partner.
    pub fn last_partner(&self, below: usize, rule: Rule, e: Entry) -> usize
        requires { (below ≤ self.now.count) × (self.now.count ≤ places) }
        ensures { result ≡ last_place (λ x. pairs rule e x.entry) (take below (held self.now)) }
    {
        for i in (0..below).rev() {
            let y = self.entry_at(i);
            if rule.pairs(e, y.entry) {
                return i;
            }
        }
        0
    }

    // How many held entries would a gate of the other journal leave?
    pub fn left_by(&self, gate: Gate) -> usize
        requires { self.now.count ≤ places }
        ensures { result ≡ length (wanted_by gate (held self.now)) }
    {
        let mut left = 0;
        for x in self.held() {
            if gate.wants(x.entry) {
                left += 1;
            }
        }
        left
    }

    // Is every held entry sound?
    fn entries_sound(&self, rule: Rule, own: Journal, other: Gate) -> bool
        requires { self.now.count ≤ places }
        ensures { result ≡ list_all (sound_entry rule own other) (held self.now) }
    {
        self.held()
            .iter()
            .all(|x| entry_sound(*x, rule, own, other))
    }

    // Does every held entry follow the one before it?
    fn in_order(&self) -> bool
        requires { self.now.count ≤ places }
        ensures { result ≡ chain follows (held self.now) }
    {
        self.held().is_sorted_by(|x, y| followed(*x, *y))
    }

    // Does every spare place hold zeros?
    fn spare_blank(&self) -> bool
        requires { self.now.count ≤ places }
        ensures { result ≡ list_all spare_entry (drop self.now.count self.now.places) }
    {
        self.spare().iter().all(|x| is_spare(*x))
    }

    // Is the state of the area sound, beside the rule, its own journal and the other's gate? Then its places store just what it holds.
    #[tactic(auto, using(crate::proofs::Laws::spare_holds), unfolding(crate::specs::Area::sound_area))]
    pub fn sound(&self, rule: Rule, own: Journal, other: Gate) -> bool
        ensures value { result ≡ sound_area rule own other self.now }
        ensures holds { result ≡ true → Holds self.now }
    {
        if Area::MOST < self.count {
            return false;
        }
        self.entries_sound(rule, own, other) && (self.in_order() && self.spare_blank())
    }
}
