// Joins many feeds, each by its rule, and prints what is printed of each. Each is joined whole, and again through windows that grow by a byte at a time; it says so where the two differ.
#![tactic(auto)]

ghost use Rattle.std.specs.Prelude.{◌≤◌, length};
ghost use Rattle.std.specs.Io.{ReadsAtMost};

use feed_stream::step_on;
use framing::Went;
use pairing::Rule;
use pipe::Flow;
use std::io;
use std::io::Read;
use steps::{Progress, READ_LIMIT, ROOM};
use whole_feed::print_feed;

// No more feeds than this are joined.
const FEEDS: usize = 1000000;

// A feed has no more bytes than this.
const LONGEST: usize = 65536;

// Room for what is printed of a feed, and for a step more.
const TEXT: usize = 131072;

// The number in 4 bytes of a head from a place on, the least byte first.
fn number_in(head: [u8; 12], at: usize) -> u32
    requires { at ≤ 8 }
{
    u32::from_le_bytes([head[at], head[at + 1], head[at + 2], head[at + 3]])
}

// The rule that a head names: 0 is equal keys, 1 near keys with a width, any other every couple.
fn rule_in(kind: u32, width: u32) -> Rule {
    match kind {
        0 => Rule::Equal,
        1 => Rule::Near(width),
        _ => Rule::Every,
    }
}

// How many bytes may be read of a feed of this size.
fn limit_of(by_limit: bool, size: usize) -> u32
    requires { size ≤ 65536 }
{
    if by_limit { size as u32 } else { READ_LIMIT }
}

// Is the input known to end here? Where the limit ends the feed, that is never told.
fn knows_end(by_limit: bool, end: usize, all: usize) -> bool {
    !by_limit && end == all
}

// Joins a feed through windows that grow by a byte until they tell, and puts out the pieces one behind the other. The feed ends by its limit, or where the input is known to end. Answers how many bytes were put out.
fn put_pieces(rule: Rule, feed: &[u8], by_limit: bool, out: &mut [u8]) -> usize
    requires { (length feed.now ≤ 65536) × (length out.old ≤ 131072) }
    ensures { result ≤ length out.old }
{
    let mut run = Progress::begun(rule);
    let mut flow = Flow::begun(limit_of(by_limit, feed.len()));
    while ROOM <= out.len() - flow.filled {
        flow.ended = knows_end(by_limit, flow.end, feed.len());
        match step_on(&mut run, &flow, feed, out) {
            Went::More => {
                if feed.len() <= flow.end {
                    return flow.filled;
                }
                flow.end += 1;
            }
            Went::On { used, filled } => {
                flow.left -= used;
                flow.at += used;
                flow.filled += filled;
            }
            Went::Ended { filled } => {
                return flow.filled + filled;
            }
        }
    }
    flow.filled
}

// Joins a feed whole. Answers how many bytes were put out: none where they do not fit, which is not what must be printed.
#[tactic(auto, unfolding(whole_feed::specs::Printing::fitted))]
fn put_whole(rule: Rule, feed: &[u8], out: &mut [u8]) -> usize
    ensures { result ≤ length out.old }
{
    print_feed(rule, feed, out).unwrap_or(0)
}

// Prints what is printed of a feed, and says so where it is another text through windows.
fn print_both(
    rt: &impl Print,
    rule: Rule,
    feed: &[u8],
    by_limit: bool,
    text: &mut [u8],
    pieces: &mut [u8],
) -> io::Result<()>
    requires { (length feed.now ≤ 65536) × (length pieces.old ≤ 131072) }
{
    let whole = put_whole(rule, feed, text);
    rt.write_all(&text[..whole])?;
    let put = put_pieces(rule, feed, by_limit, pieces);
    if text[..whole] != pieces[..put] {
        rt.write_all(b"through windows it is another text\n")?;
    }
    Ok(())
}

// Reads until the buffer is full or the input ends. Answers how many bytes came.
fn read_full<R: Read>(input: &mut R, buf: &mut [u8]) -> io::Result<usize>
    ensures { ReadsAtMost result buf.new }
{
    let mut done = 0;
    while done < buf.len() {
        let got = input.read(&mut buf[done..])?;
        if got == 0 {
            break;
        }
        done += got;
    }
    Ok(done)
}

fn main(rt: HostRuntime) -> io::Result<()> {
    let mut input = rt.stdin();
    let mut feed = [0u8; LONGEST];
    let mut text = [0u8; TEXT];
    let mut pieces = [0u8; TEXT];
    for n in 0..FEEDS {
        let mut head = [0u8; 12];
        if read_full(&mut input, &mut head)? < 12 {
            return Ok(());
        }
        let rule = rule_in(number_in(head, 0), number_in(head, 4));
        let size = number_in(head, 8) as usize;
        if LONGEST < size {
            return Ok(());
        }
        let got = read_full(&mut input, &mut feed[..size])?;
        print_both(&rt, rule, &feed[..got], n % 2 == 0, &mut text, &mut pieces)?;
    }
    Ok(())
}
