// A feed that is at hand joined whole: what is printed of it, put into a buffer that the caller lends.
#![tactic(auto)]

ghost use Rattle.std.specs.Prelude.{◌≡◌, true, ◌+◌, ◌-◌, ◌≤◌, length};
ghost use Rattle.lists.specs.Put.{put};
ghost use Rattle.feed.specs.Kind.{shortest_record};
ghost use Rattle.framing.specs.Step.{More, On, stepped, went_of, used_of, filled_of};
ghost use Rattle.steps.specs.Printed.{joinfeed, printed, read_limit};
ghost use Rattle.steps.specs.Step.{effect_with, Kept, room};
ghost use Rattle.whole_feed.specs.Printing.{printing_of, printout, printing};

use framing::Went;
use pairing::Rule;
use steps::{Progress, READ_LIMIT, ROOM};

// Some text into a buffer from a place on, if there is room for it.
fn put_fitting(out: &mut [u8], at: usize, text: &[u8])
    ensures { at + length text.now ≤ length out.old → out.new ≡ put at text.now out.old }
{
    if at <= out.len() && text.len() <= out.len() - at {
        lines::put_text(out, at, text);
    }
}

// One step on all that is left of a feed.
fn step_on_rest(run: &mut Progress, left: usize, rest: &[u8], lines: &mut [u8]) -> Went
    requires { (Kept run.old left) × (room ≤ length lines.old) }
    ensures out_after { effect_with result run.new lines.new ≡ stepped joinfeed run.old left rest.now true lines.old }
    ensures kept { Kept run.new (left - used_of result) }
    ensures bounds { (used_of result ≤ left) × (used_of result ≤ length rest.now) × (filled_of result ≤ length lines.old) }
    ensures goes { (went_of result ≡ On → shortest_record ≤ used_of result) × (went_of result ≡ More → ⊥) }
{
    run.step(left, rest, true, lines)
}

// The text of a feed, step by step, from the buffer's first byte on, if it has room for all; answers how many bytes the text has.
fn put_steps(rule: Rule, feed: &[u8], out: &mut [u8]) -> usize
    ensures value { result ≡ length (printed rule read_limit feed.now) }
    ensures out_after { length (printed rule read_limit feed.now) ≤ length out.old → out.new ≡ put 0 (printed rule read_limit feed.now) out.old }
{
    let mut run = Progress::begun(rule);
    let mut left = READ_LIMIT as usize;
    let mut at = 0;
    let mut lines = [0u8; ROOM];
    let mut size = 0;
    loop {
        match step_on_rest(&mut run, left, &feed[at..], &mut lines) {
            Went::On { used, filled } => {
                put_fitting(out, size, &lines[..filled]);
                left -= used;
                at += used;
                size += filled;
            }
            Went::Ended { filled: last } => {
                put_fitting(out, size, &lines[..last]);
                return size + last;
            }
            // The whole feed is shown.
            Went::More => unreachable!(),
        }
    }
}

// What is printed of a feed, joined by a rule: into the buffer from its first byte on, if it has room for all of it; answers how many bytes that are. It is counted first, so that a buffer that is too short is not touched.
#[tactic(auto, unfolding(crate::specs::Printing::fitted))]
pub fn print_feed(rule: Rule, feed: &[u8], out: &mut [u8]) -> Option<usize>
    ensures { printout (printing_of result) out.new ≡ printing rule feed.now out.old }
{
    let size = put_steps(rule, feed, &mut []);
    if out.len() < size {
        return None;
    }
    put_steps(rule, feed, out);
    Some(size)
}
