// Shows on the compiled code the bytes of a mark, and two feeds that are refused; then a record of each other kind.
#![tactic(auto)]

use interval::Interval;
use pairing::{Entry, Pair, Partner};
use refusals::Refusal;
use std::io;

// The bytes of a line, two digits each and a space between.
fn print_bytes(rt: &impl Print, bytes: &[u8]) -> io::Result<()> {
    for (i, b) in bytes.iter().enumerate() {
        if i == 0 {
            print!(rt; "{b:02X}")?;
        } else {
            print!(rt; " {b:02X}")?;
        }
    }
    println!(rt)
}

// The bytes of a record, or why it was not written.
fn print_written(rt: &impl Print, written: Result<usize, Refusal>, buf: &[u8]) -> io::Result<()> {
    match written {
        Ok(_) => print_bytes(rt, buf),
        Err(refusal) => println!(rt; "refused with {refusal}"),
    }
}

// The number with which a feed is refused at its start.
fn print_refusal(rt: &impl Print, s: &[u8]) -> io::Result<()> {
    if let Err(misread) = feed::read(s, 0) {
        println!(rt; "{}", misread.refusal)?;
    }
    Ok(())
}

fn print_entry(rt: &impl Print) -> io::Result<()> {
    let mut buf = [0u8; 22];
    let entry = Entry {
        span: Interval { start: 10, end: 50 },
        key: 7,
        value: 100,
    };
    let written = feed_write::write_entry(&mut buf, 0, entry);
    print_written(rt, written, &buf)
}

fn print_mark(rt: &impl Print) -> io::Result<()> {
    let mut buf = [0u8; 10];
    let written = feed_write::write_mark(&mut buf, 1, 30);
    print_written(rt, written, &buf)
}

fn print_close(rt: &impl Print) -> io::Result<()> {
    let mut buf = [0u8; 6];
    let written = feed_write::write_close(&mut buf, 1);
    print_written(rt, written, &buf)
}

// A note, and its text as it is read back.
fn print_note(rt: &impl Print) -> io::Result<()> {
    let mut buf = [0u8; 8];
    let written = feed_write::write_note(&mut buf, b"lamp");
    print_written(rt, written, &buf)?;
    rt.write_all(feed::text(&buf, 0))?;
    println!(rt)
}

fn print_pair(rt: &impl Print) -> io::Result<()> {
    let mut buf = [0u8; 36];
    let pair = Pair {
        meeting: Interval { start: 20, end: 30 },
        a: Partner {
            ordinal: 0,
            key: 7,
            value: 100,
        },
        b: Partner {
            ordinal: 1,
            key: 7,
            value: 5,
        },
    };
    let written = feed_write::write_pair(&mut buf, pair);
    print_written(rt, written, &buf)
}

fn main(rt: HostRuntime) -> io::Result<()> {
    print_mark(&rt)?;
    print_refusal(&rt, b"\x08")?;
    print_refusal(&rt, b"\x00\x00")?;
    print_entry(&rt)?;
    print_close(&rt)?;
    print_note(&rt)?;
    print_pair(&rt)
}
