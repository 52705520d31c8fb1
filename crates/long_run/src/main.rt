// joinfeed on a feed several windows long.
#![tactic(auto)]

use std::io;

fn main(rt: HostRuntime) -> io::Result<()> {
    let mut input = rt.stdin();
    let mut output = rt.stdout();
    let mut errors = rt.stderr();
    feed_stream::join_input(&mut input, &mut output, &mut errors, steps::READ_LIMIT)
}
