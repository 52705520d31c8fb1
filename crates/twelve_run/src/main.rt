// Runs the calls of the twelve examples of document 01, with what P2 adds to the eleventh, on the compiled code, each from a fresh join, and prints the answer to each call and what is held after it. A refusal is printed as its number, a pair as its meeting and its A and B ordinals, a key where it is not 1.
#![tactic(auto)]

use interval::Interval;
use join::{Join, Taken};
use pairing::{Entry, Rule};
use refusals::Refusal;
use std::io;

const A: u16 = 0;

const B: u16 = 1;

// A line of the table. An entry has its stream, start, end and key.
#[derive(Clone, Copy)]
enum Line {
    // An example begins: its number, and its rule.
    Example(u32, Rule),
    Entry(u16, u32, u32, u32),
    // The same entry so many times.
    Entries(u16, u32, u32, u32, u32),
    // A mark: stream and time.
    Mark(u16, u32),
    Close(u16),
    Take,
    // How many pairs wait.
    Waiting,
    // The pair in a place of the queue: which.
    Pair(usize),
    // How many entries area A holds.
    Area,
}

const LINES: usize = 88;

const TABLE: [Line; LINES] = [
    Line::Example(1, Rule::Equal),
    Line::Entry(A, 10, 20, 1),
    Line::Entry(B, 20, 30, 1),
    Line::Waiting,
    Line::Example(2, Rule::Equal),
    Line::Entry(A, 10, 21, 1),
    Line::Entry(B, 20, 30, 1),
    Line::Waiting,
    Line::Pair(0),
    Line::Example(3, Rule::Equal),
    Line::Entry(A, 5, 6, 1),
    Line::Mark(B, 6),
    Line::Area,
    Line::Example(4, Rule::Equal),
    Line::Entry(B, 2, 20, 1),
    Line::Mark(B, 10),
    Line::Entry(A, 3, 5, 1),
    Line::Waiting,
    Line::Pair(0),
    Line::Take,
    Line::Area,
    Line::Mark(A, 4),
    Line::Take,
    Line::Example(5, Rule::Equal),
    Line::Entry(A, 1, 4, 1),
    Line::Entry(A, 1, 4, 1),
    Line::Entry(B, 2, 3, 1),
    Line::Waiting,
    Line::Pair(0),
    Line::Pair(1),
    Line::Example(6, Rule::Equal),
    Line::Entry(A, 7, 7, 1),
    Line::Example(7, Rule::Equal),
    Line::Entry(A, 4294967294, 4294967295, 1),
    Line::Example(8, Rule::Equal),
    Line::Mark(A, 10),
    Line::Entry(A, 9, 12, 1),
    Line::Entry(A, 10, 12, 1),
    Line::Example(9, Rule::Equal),
    Line::Entries(A, 0, 9, 1, 64),
    Line::Entry(A, 0, 9, 1),
    Line::Mark(B, 9),
    Line::Entry(A, 0, 10, 1),
    Line::Example(10, Rule::Equal),
    Line::Entries(A, 0, 100, 1, 64),
    Line::Entries(B, 0, 100, 1, 4),
    Line::Waiting,
    Line::Take,
    Line::Entry(B, 0, 100, 1),
    Line::Example(11, Rule::Near(2)),
    Line::Entry(A, 10, 20, 5),
    Line::Entry(B, 10, 20, 7),
    Line::Waiting,
    Line::Example(11, Rule::Near(2)),
    Line::Entry(A, 10, 20, 5),
    Line::Entry(B, 10, 20, 8),
    Line::Waiting,
    Line::Example(11, Rule::Near(2)),
    Line::Entry(A, 10, 20, 35999),
    Line::Entry(B, 10, 20, 1),
    Line::Waiting,
    Line::Example(11, Rule::Near(2)),
    Line::Entry(A, 10, 20, 35999),
    Line::Entry(B, 10, 20, 2),
    Line::Waiting,
    Line::Example(11, Rule::Near(2)),
    Line::Entry(A, 10, 20, 36000),
    Line::Example(11, Rule::Near(18000)),
    Line::Entry(A, 10, 20, 0),
    Line::Entry(B, 10, 20, 18000),
    Line::Waiting,
    Line::Example(11, Rule::Near(18000)),
    Line::Entry(A, 10, 20, 18000),
    Line::Entry(B, 10, 20, 0),
    Line::Waiting,
    Line::Example(11, Rule::Near(17999)),
    Line::Entry(A, 10, 20, 0),
    Line::Entry(B, 10, 20, 18000),
    Line::Waiting,
    Line::Example(11, Rule::Near(17999)),
    Line::Entry(A, 10, 20, 18000),
    Line::Entry(B, 10, 20, 0),
    Line::Waiting,
    Line::Example(12, Rule::Equal),
    Line::Take,
    Line::Close(A),
    Line::Close(B),
    Line::Take,
];

fn entry(start: u32, end: u32, key: u32) -> Entry {
    let span = Interval { start, end };
    Entry {
        span,
        key,
        value: 0,
    }
}

fn name_of(stream: u16) -> char {
    if stream == A { 'A' } else { 'B' }
}

fn print_entry(rt: &impl Print, stream: u16, e: Entry) -> io::Result<()> {
    let name = name_of(stream);
    let span = e.span;
    print!(rt; " {name} {span}")?;
    let key = e.key;
    if key != 1 {
        print!(rt; " key {key}")?;
    }
    Ok(())
}

fn print_answer(rt: &impl Print, answer: Result<(), Refusal>) -> io::Result<()> {
    match answer {
        Ok(()) => print!(rt; ": accepted."),
        Err(refusal) => print!(rt; ": {refusal}."),
    }
}

fn print_taken(rt: &impl Print, answer: Result<Taken, Refusal>) -> io::Result<()> {
    match answer {
        Ok(Taken::Handed(pair)) => print!(rt; " Take: {pair}."),
        Ok(Taken::Waiting) => print!(rt; " Take: Waiting."),
        Ok(Taken::Finished) => print!(rt; " Take: Finished."),
        Err(refusal) => print!(rt; " Take: {refusal}"),
    }
}

fn print_example(rt: &impl Print, number: u32, rule: Rule) -> io::Result<()> {
    print!(rt; "{number}.")?;
    if let Rule::Near(width) = rule {
        print!(rt; " Near, width {width}.")?;
    }
    Ok(())
}

fn accepted(join: &Join, stream: u16) -> u32 {
    if stream == A {
        join.a.journal.accepted
    } else {
        join.b.journal.accepted
    }
}

// The same entry so many times, and how many entries the journal has accepted then.
fn enter_many(
    rt: &impl Print,
    join: &mut Join,
    stream: u16,
    e: Entry,
    times: u32,
) -> io::Result<()> {
    print!(rt; " {times} times")?;
    print_entry(rt, stream, e)?;
    for _ in 0..times {
        // The count says below how many were accepted.
        let _ = join.entry(stream, e);
    }
    let accepted = accepted(join, stream);
    print!(rt; ": {accepted} accepted.")
}

// One line of an example, on the join as the line before left it.
fn run_line(rt: &impl Print, join: &mut Join, line: Line) -> io::Result<()> {
    match line {
        Line::Example(number, rule) => {
            *join = Join::fresh(rule);
            print_example(rt, number, rule)
        }
        Line::Entry(stream, start, end, key) => {
            let e = entry(start, end, key);
            print_entry(rt, stream, e)?;
            print_answer(rt, join.entry(stream, e))
        }
        Line::Entries(stream, start, end, key, times) => {
            enter_many(rt, join, stream, entry(start, end, key), times)
        }
        Line::Mark(stream, time) => {
            let name = name_of(stream);
            print!(rt; " {name} mark {time}")?;
            print_answer(rt, join.mark(stream, time))
        }
        Line::Close(stream) => {
            let name = name_of(stream);
            print!(rt; " {name} close")?;
            print_answer(rt, join.close(stream))
        }
        Line::Take => print_taken(rt, join.take()),
        Line::Waiting => {
            let waiting = join.queue.count;
            print!(rt; " Waiting: {waiting}.")
        }
        Line::Pair(at) => match join.queue.places.get(at) {
            Some(pair) => print!(rt; " Pair {pair}."),
            None => Ok(()),
        },
        Line::Area => {
            let held = join.a.area.count;
            print!(rt; " Area A: {held}.")
        }
    }
}

fn main(rt: HostRuntime) -> io::Result<()> {
    let mut join = Join::fresh(Rule::Equal);
    for (i, line) in TABLE.iter().enumerate() {
        if 0 < i && matches!(line, Line::Example(_, _)) {
            println!(rt)?;
        }
        run_line(&rt, &mut join, *line)?;
    }
    println!(rt)
}
