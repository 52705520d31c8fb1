// joinfeed with a limit that a record crosses; then how many bytes of the input are left for the next reader.
#![tactic(auto)]

use std::io;
use std::io::Read;

// No more bytes than this are counted.
const MOST: u64 = 65536;

fn main(rt: HostRuntime) -> io::Result<()> {
    let mut input = rt.stdin();
    let mut output = rt.stdout();
    let mut errors = rt.stderr();
    feed_stream::join_input(&mut input, &mut output, &mut errors, 90)?;
    let left = io::copy(&mut input.take(MOST), &mut io::sink())?;
    println!(rt; "{left} bytes are left")
}
