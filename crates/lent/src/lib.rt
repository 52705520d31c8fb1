// Two small services over what a caller lends: a count of partners over a run of entries, and a journal's clock moved where it stands.
#![tactic(auto)]

ghost use Rattle.std.specs.Prelude.{◌≡◌, length, filter};
ghost use Rattle.journal.specs.Answer.{answer_of};
ghost use Rattle.journal.specs.Journal.{marked};
ghost use Rattle.pairing.specs.Pair.{pairs};
ghost use Rattle.area.specs.Area.{held};
ghost use Rattle.lent.specs.Counted.{answered, counted, counted_as, entries_of};

use area::Area;
use journal::Journal;
use pairing::{Entry, Rule};
use refusals::Refusal;

// The count, unless the given entry is improper: that is refused with 3.
fn answer(given: Entry, found: usize) -> Result<usize, Refusal>
    ensures { counted_as result ≡ answered given found }
{
    if !given.span.proper() {
        return Err(Refusal::Improper);
    }
    Ok(found)
}

fn partners(run: &[Entry], rule: Rule, given: Entry) -> usize
    ensures { result ≡ length (filter (λ e. pairs rule given e) run.now) }
{
    // One pass with a count, as in an area.
    let mut found = 0;
    for e in run {
        if rule.pairs(given, *e) {
            found += 1;
        }
    }
    found
}

// How many entries of the run pair with one given entry of the other journal?
pub fn partner_count(run: &[Entry], rule: Rule, given: Entry) -> Result<usize, Refusal>
    ensures { counted_as result ≡ counted rule given run.now }
{
    let found = partners(run, rule, given);
    answer(given, found)
}

// The same count over what an area holds, with its places by value: all of them, where its count is beyond them.
pub fn held_count(area: Area, rule: Rule, given: Entry) -> Result<usize, Refusal>
    ensures { counted_as result ≡ counted rule given (entries_of (held area)) }
{
    let within = Area {
        count: area.count.min(Area::PLACES),
        ..area
    };
    answer(given, within.partners(rule, given))
}

// A mark on a journal that is lent alone: it moves the clock where it stands, or is refused with 2 or 4 and leaves the journal as it was.
pub fn mark_lent(journal: &mut Journal, time: u32) -> Result<(), Refusal>
    ensures answer { answer_of result ≡ (marked time journal.old).answer }
    ensures journal { journal.new ≡ (marked time journal.old).journal }
{
    *journal = journal.mark(time)?;
    Ok(())
}
