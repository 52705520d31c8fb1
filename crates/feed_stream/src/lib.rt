// Standard input joined through a window of bounded size, and what is printed of it written to standard output.
#![tactic(auto)]

ghost use Rattle.std.specs.Prelude.{◌≡◌, ℕ, List, false, ◌+◌, ◌-◌, ◌≤◌, ◌<◌, length, take, drop, IfSome, OnOk};
ghost use Rattle.std.specs.Io.KnownBytes.{Appends, Consumes};
ghost use Rattle.std.proofs.Math.Seq.{slice};
ghost use Rattle.feed.specs.Kind.{shortest_record, longest_record};
ghost use Rattle.framing.specs.Step.{More, On, stepped, went_of, used_of, filled_of};
ghost use Rattle.steps.specs.Printed.{joinfeed, printed};
ghost use Rattle.steps.specs.Step.{effect_with, Kept, room};

use framing::Went;
use pairing::Rule;
use pipe::Flow;
use std::io;
use std::io::{Read, Write};
use steps::{Progress, ROOM};

// One step on the bytes of the window that are not used yet, putting behind what is filled of the buffer.
pub fn step_on(run: &mut Progress, flow: &Flow, window: &[u8], out: &mut [u8]) -> Went
    requires { (Kept run.old flow.now.left) × (flow.now.at ≤ flow.now.end) × (flow.now.end ≤ length window.now) × (flow.now.filled + room ≤ length out.old) }
    ensures kept { Kept run.new (flow.now.left - used_of result) }
    ensures bounds { (used_of result ≤ flow.now.left) × (flow.now.at + used_of result ≤ flow.now.end) × (flow.now.filled + filled_of result ≤ length out.old) × (went_of result ≡ On → shortest_record ≤ used_of result) × (went_of result ≡ More → (flow.now.ended ≡ false) × (flow.now.end - flow.now.at < longest_record) × (used_of result ≡ 0)) }
    ensures out_after { effect_with result run.new (drop flow.now.filled out.new) ≡ stepped joinfeed run.old flow.now.left (slice flow.now.at flow.now.end window.now) flow.now.ended (drop flow.now.filled out.old) }
    ensures out_unchanged { take flow.now.filled out.new ≡ take flow.now.filled out.old }
{
    let shown = &window[flow.at..flow.end];
    let free = &mut out[flow.filled..];
    run.step(flow.left, shown, flow.ended, free)
}

// How many bytes the window has, and the buffer of what is put out.
const SIZE: usize = 65536;

// Joins the feed that the input is, up to the limit, and writes what is printed of it; where it stopped short of `done`, `errors` is told.
pub fn join_input<R: Read, W: Write, E: Write>(
    input: &mut R,
    output: &mut W,
    errors: &mut E,
    limit: u32,
) -> io::Result<()>
    ensures written { OnOk result (IfSome (R.remaining input.old) (λ feed. Appends (W.contents output.old) (W.contents output.new) (printed Rule.Equal limit feed))) }
    ensures in_limit { OnOk result ((bytes : List ℕ) × (length bytes ≤ limit) × Consumes (R.remaining input.old) (R.remaining input.new) bytes) }
{
    let mut run = Progress::begun(Rule::Equal);
    let mut window = [0u8; SIZE];
    let mut out = [0u8; SIZE];
    let mut flow = Flow::begun(limit);
    // Until a step ends or a stream fails; nothing is counted here.
    loop {
        match step_on(&mut run, &flow, &window, &mut out) {
            Went::More => flow = flow.refill(input, output, &mut window, &out)?,
            Went::On { used, filled } => flow = flow.go_on(output, &out, used, filled, ROOM)?,
            Went::Ended { filled } => {
                return flow.finish(output, errors, &out, filled, run.records);
            }
        }
    }
}
