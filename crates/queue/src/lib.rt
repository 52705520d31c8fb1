// The queue: the pairs formed and not yet handed out, in the plain list's order.
#![tactic(auto)]

ghost use Rattle.std.specs.Prelude.{◌≡◌, true, false, ◌+◌, ◌≤◌, ◌<◌, [], length, get_or, take, drop, filter};
ghost use Rattle.std.specs.List.{list_all};
ghost use Rattle.std.specs.List.Sorted.{IsPartitionPoint};
ghost use Rattle.lists.specs.Judge.{chain};
ghost use Rattle.lists.specs.Sort.{insert_all_by};
ghost use Rattle.lists.proofs.Merge.{Slid, below};
ghost use Rattle.lists.proofs.Order.{Ascending};
ghost use Rattle.pairing.specs.Pair.{comes_before};
ghost use Rattle.pairing.specs.Side.{new_pairs};
ghost use Rattle.area.specs.Area as the_area;
ghost use Rattle.queue.specs.Queue.{places, waiting, no_pair, queue_of, Holds, ready, sound_pair, spare_pair, sound_queue};

use area::Area;
use journal::Gate;
use pairing::{Numbered, Pair, Rule, Side};

// The pairs wait in the first `count` places, in order.
#[derive(Clone, Copy)]
pub struct Queue {
    pub count: usize,
    pub places: [Pair; Queue::PLACES],
}

// Does the pair start below the clock of every open journal?
#[tactic(auto, unfolding(crate::specs::Queue::ready))]
pub fn is_ready(p: Pair, a: Gate, b: Gate) -> bool
    ensures { result ≡ ready a b p }
{
    a.passed(p.meeting.start) && b.passed(p.meeting.start)
}

fn pair_sound(p: Pair, of_a: u32, of_b: u32) -> bool
    ensures { result ≡ sound_pair of_a of_b p }
{
    p.meeting.proper() && (p.a.ordinal < of_a && p.b.ordinal < of_b)
}

fn is_spare(p: Pair) -> bool
    ensures { result ≡ spare_pair p }
{
    p == Pair::default()
}

impl Queue {
    // How many pairs may wait.
    pub const PLACES: usize = 256;

    pub fn fresh() -> Queue
        ensures { result ≡ queue_of [] }
    {
        Queue {
            count: 0,
            places: [Pair::default(); Queue::PLACES],
        }
    }

    fn waiting(&self) -> &[Pair]
        requires { self.now.count ≤ places }
        ensures { result.now ≡ waiting self.now }
    {
        &self.places[..self.count]
    }

    fn spare(&self) -> &[Pair]
        requires { self.now.count ≤ places }
        ensures { result.now ≡ drop self.now.count self.now.places }
    {
        &self.places[self.count..]
    }

    // The first waiting pair.
    pub fn first(&self) -> Pair
        requires { (0 < self.now.count) × (Holds self.now) }
        ensures { result ≡ get_or (waiting self.now) 0 no_pair }
    {
        self.places[0]
    }

    // The first k waiting pairs taken away.
    pub fn drop_first(&mut self, k: usize)
        requires { (k ≤ self.old.count) × (Holds self.old) }
        ensures { self.new ≡ queue_of (drop k (waiting self.old)) }
    {
        if k == 0 {
            return;
        }
        let n = self.count;
        self.places.copy_within(k..n, 0);
        self.places[n - k..n].fill(Pair::default());
        self.count = n - k;
    }

    // Where p goes among the first w pairs: behind those that it does not come before. Most new pairs go near the end, so it is sought from there, twice as far back at each turn, and then between the last two places by halves.
    fn place_of(&self, w: usize, p: Pair) -> usize
        requires { (w ≤ places) × Ascending comes_before (take w self.now.places) }
        ensures { (result ≤ w) × IsPartitionPoint (λ q. below comes_before p q ≡ true) (λ q. below comes_before p q ≡ false) (take w self.now.places) result }
    {
        let mut high = w;
        let mut back = 1;
        while back <= w && p.comes_before(self.places[w - back]) {
            high = w - back;
            back *= 2;
        }
        let low = (w + 1).saturating_sub(back);
        low + self.places[low..high].partition_point(|q| !p.comes_before(*q))
    }

    // As `slide`, for a pair that comes before some of them. Apart, so that the loop over the new pairs is short.
    #[inline(never)]
    fn slide_among(&mut self, w: usize, gap: usize, p: Pair) -> usize
        requires { (0 < gap) × (w + gap ≤ places) × Ascending comes_before (take w self.old.places) }
        ensures { (self.new.count ≡ self.old.count) × Slid comes_before p self.old.places w gap result self.new.places }
    {
        let k = self.place_of(w, p);
        self.places.copy_within(k..w, k + gap);
        self.places[k + gap - 1] = p;
        k
    }

    // Of the first w pairs, those that p comes before moved up by gap places, and p below them; answers how many are below p. Most new pairs go behind all of them.
    fn slide(&mut self, w: usize, gap: usize, p: Pair) -> usize
        requires { (0 < gap) × (w + gap ≤ places) × Ascending comes_before (take w self.old.places) }
        ensures { (self.new.count ≡ self.old.count) × Slid comes_before p self.old.places w gap result self.new.places }
    {
        if 0 < w && p.comes_before(self.places[w - 1]) {
            return self.slide_among(w, gap, p);
        }
        self.places[w + gap - 1] = p;
        w
    }

    // The new pairs of an arrival, as many as are given, put into their places among the waiting ones.
    pub fn merge(&mut self, area: &Area, rule: Rule, side: Side, x: Numbered, new: usize)
        requires { (Holds self.old) × (chain comes_before (waiting self.old) ≡ true) × (the_area.Holds area.now) × (chain comes_before (new_pairs rule side x (the_area.held area.now)) ≡ true) × (new ≡ length (new_pairs rule side x (the_area.held area.now))) × (self.old.count + new ≤ places) }
        ensures { self.new ≡ queue_of (insert_all_by comes_before (new_pairs rule side x (the_area.held area.now)) (waiting self.old)) }
    {
        let mut i = area.count;
        let mut w = self.count;
        // From the last new pair down, so that each waiting one moves once at the most.
        for left in (0..new).rev() {
            i = area.last_partner(i, rule, x.entry);
            let y = area.entry_at(i);
            let p = side.pair(x, y);
            w = self.slide(w, left + 1, p);
        }
        self.count += new;
    }

    // How many of the waiting pairs, from the first on, are ready?
    pub fn ready(&self, a: Gate, b: Gate) -> usize
        requires { (Holds self.now) × (chain comes_before (waiting self.now) ≡ true) }
        ensures value { result ≡ length (filter (ready a b) (waiting self.now)) }
        ensures first { take result (waiting self.now) ≡ filter (ready a b) (waiting self.now) }
    {
        self.waiting()
            .iter()
            .take_while(|p| is_ready(**p, a, b))
            .count()
    }

    // Is every waiting pair sound?
    fn pairs_sound(&self, of_a: u32, of_b: u32) -> bool
        requires { self.now.count ≤ places }
        ensures { result ≡ list_all (sound_pair of_a of_b) (waiting self.now) }
    {
        self.waiting().iter().all(|p| pair_sound(*p, of_a, of_b))
    }

    // Does every waiting pair come before the next?
    fn in_order(&self) -> bool
        requires { self.now.count ≤ places }
        ensures { result ≡ chain comes_before (waiting self.now) }
    {
        self.waiting().is_sorted_by(|p, q| p.comes_before(*q))
    }

    // Does every spare place hold zeros?
    fn spare_blank(&self) -> bool
        requires { self.now.count ≤ places }
        ensures { result ≡ list_all spare_pair (drop self.now.count self.now.places) }
    {
        self.spare().iter().all(|p| is_spare(*p))
    }

    // Is the state of the queue sound, beside the accepted counts of the journals? Then its places store just the waiting pairs.
    #[tactic(auto, using(crate::proofs::Laws::spare_holds), unfolding(crate::specs::Queue::sound_queue))]
    pub fn sound(&self, of_a: u32, of_b: u32) -> bool
        ensures value { result ≡ sound_queue of_a of_b self.now }
        ensures holds { result ≡ true → Holds self.now }
    {
        if Queue::PLACES < self.count {
            return false;
        }
        self.pairs_sound(of_a, of_b) && (self.in_order() && self.spare_blank())
    }
}
