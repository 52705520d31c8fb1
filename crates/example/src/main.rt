// A caller of the library: a setting and a hold of the evening are joined by equal keys, and their pair is taken.
#![tactic(auto)]

use interval::Interval;
use join::{Join, Taken};
use pairing::{Entry, Pair, Rule};
use refusals::Refusal;
use std::io;

fn entry(start: u32, end: u32, key: u32, value: u32) -> Entry {
    let span = Interval { start, end };
    Entry { span, key, value }
}

// A refusal changes nothing in the join, and is handed on.
fn evening() -> Result<Taken, Refusal> {
    let mut join = Join::fresh(Rule::Equal);
    // Axis 1 is set by sheet 101 up to 4000 ms, and held from 3000 up to 5000 ms.
    join.entry(0, entry(0, 4000, 1, 101))?;
    join.entry(1, entry(3000, 5000, 1, 2))?;
    // Their pair starts at 3000 and is ready, as A's next entry starts at 4000 or later and B brings none.
    join.mark(0, 4000)?;
    join.close(1)?;
    join.take()
}

fn say_pair(rt: &impl Print, pair: Pair) -> io::Result<()> {
    let sheet = pair.a.value;
    let hold = pair.b.value;
    let Interval { start, end } = pair.meeting;
    println!(rt; "sheet {sheet} was in force during hold {hold} from {start} up to {end}")
}

fn main(rt: HostRuntime) -> io::Result<()> {
    match evening() {
        Ok(Taken::Handed(pair)) => say_pair(&rt, pair),
        Ok(Taken::Waiting) => println!(rt; "nothing is ready"),
        Ok(Taken::Finished) => println!(rt; "all pairs were handed out"),
        Err(refusal) => println!(rt; "refused with {refusal}"),
    }
}
